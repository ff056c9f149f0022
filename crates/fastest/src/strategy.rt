// The fastest tree for a line's delay and gap: the strategy of the report's section 4.
ghost use Rattle.std.specs.Prelude.{◌≡◌};
ghost use Rattle.column.specs.Refusals.{refusal_of, meant};
ghost use Rattle.fastest.specs.Strategy.{fastest_refusal, fastest_given};

use crate::growth::grow;
use crate::request::Request;
use column::error::Refusal;
use column::tree::{ASCENDING, Tree};

// 2 for the columns, 17 for the delay or the gap.
#[tactic(auto, unfolding(crate::specs::Strategy::fastest_refusal))]
pub fn check_fastest(r: Request) -> Result<(), Refusal>
    ensures { refusal_of result ≡ fastest_refusal r.columns r.delay r.gap }
{
    if r.columns == 0 || 16 < r.columns {
        return Err(Refusal::ColumnCount);
    }
    if r.delay == 0 || 255 < r.delay {
        return Err(Refusal::DelayOrGap);
    }
    if r.gap == 0 || 255 < r.gap {
        return Err(Refusal::DelayOrGap);
    }
    Ok(())
}

// The tree of so many columns that completes earliest; or 2, 17.
pub fn fastest(r: Request) -> Result<Tree, Refusal>
    ensures { meant result ≡ fastest_given r.columns r.delay r.gap }
{
    check_fastest(r)?;
    let up = grow(r).up;
    Ok(Tree {
        columns: r.columns,
        root: 0,
        up,
        first: ASCENDING,
        watch: false,
    })
}
