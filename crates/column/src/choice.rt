// Which member of a set is served first.
ghost use Rattle.std.specs.Prelude.{◌≡◌};
ghost use Rattle.column.specs.Trees.{choose};

use crate::members::has;
use crate::tree::Tree;

// The member that is earliest in the tree's sequence, and 16 where none is there, as the definition says.
pub fn choose(t: Tree, set: u16) -> usize
    ensures { result ≡ choose t set }
{
    let n = t.columns.min(16);
    let first = t.first;
    for at in 0..n {
        let c = first[at] as usize;
        if has(set, c) {
            return c;
        }
    }
    16
}
