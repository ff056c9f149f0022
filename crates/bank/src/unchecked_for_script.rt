// Steps for a script, which has a bank as a local of its loop and takes many of them: the bank is tested once, and then what a step can have changed. A step is
// handed the place of its column and the count, never the whole bank, which each call would copy. No buyer's: of a bank of which what is known is not so, a step
// may answer anything; it still answers, and reaches outside nothing. What is known of a bank is who runs, or by which of 2, 3 and 4 it is refused.
ghost use Rattle.std.specs.Prelude.{◌≡◌};
ghost use Rattle.bank.specs.Parts.{Tests, StepsPart};
ghost use Rattle.bank.specs.inner.Moves.{KnownAfter};

use crate::bank::{Bank, Network, Step, Words};
use crate::kind::is_move;
pub use crate::opening::acting;
use crate::opening::check_opening;
use crate::step::change;
use crate::survey::survey;
use crate::validity::newest_valid;
use column::error::Refusal;
use column::packet::CAPACITY;
use column::state::Column;
use column::tree::Tree;

// What an accepted step makes of the place of its column and of the count, and what is known of the bank after it.
#[derive(Clone, Copy)]
pub struct Part {
    pub column: Column,
    pub count: usize,
    pub known: Result<u16, Refusal>,
}

// What is known of a bank by a test of all of it.
pub fn test_bank(b: Bank, heads: &Words) -> Result<u16, Refusal>
    ensures { Tests result b heads.now }
{
    survey(&b, heads)
}

// What is known of a bank that was valid before a step and has so many packets after it: it is refused by 4 where the newest is not valid. The heads are lent
// whole: the count is tested here. That `check_ack` of column has this form too is chance.
fn known_after(t: Tree, running: u16, count: usize, heads: &Words) -> Result<u16, Refusal>
    ensures { KnownAfter result t running count heads.now }
{
    if 16 < t.columns {
        return Err(Refusal::OutOfBank);
    }
    if CAPACITY < count {
        return Err(Refusal::OutOfBank);
    }
    if newest_valid(t.columns, t.root, t.watch, running, count, heads) {
        return Ok(running);
    }
    Err(Refusal::OutOfBank)
}

// The step x of column i in a bank of which this is known. Its place is c; a number that no place has is taken as that number less a multiple of 16.
// A step that is refused leaves the place, the count and what is known as they were. The parts go apart: a struct of them would be made for each call.
pub fn step_on(
    known: Result<u16, Refusal>,
    t: Tree,
    x: Step,
    i: usize,
    c: Column,
    count: usize,
    network: &mut Network,
) -> Result<Part, Refusal>
    ensures { StepsPart result known t x i c count network.old.heads network.old.doors network.new.heads network.new.doors }
{
    let running = known?;
    check_opening(t.columns, x, i, count)?;
    // Nothing is promised of a halt, a return or a write, nor of a count above 512; but `change` asks for a move and a count that fits.
    if !(is_move(x) & (count <= CAPACITY)) {
        return Err(Refusal::NoPacket);
    }
    let r = change(t, running, x, i, c, count, network)?;
    let known = known_after(t, running, r.count, &network.heads);
    Ok(Part {
        column: r.column,
        count: r.count,
        known,
    })
}
