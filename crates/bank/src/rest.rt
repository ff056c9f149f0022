// Whether a bank is at rest: no packet is under way, and no running column can send, acknowledge, take over or note. That a tree has sixteen columns at most is asked
// as a fact, here and where else it is: a type for it would be made from that test, and taken apart for each place and shift.
ghost use Rattle.std.specs.Prelude.{◌≡◌, ◌≤◌};
ghost use Rattle.bank.specs.Banks.{state, running_of};
ghost use Rattle.bank.specs.Rest.{is_at_rest};
ghost use Rattle.bank.specs.inner.Returning.{columns_rest};

use crate::bank::{Bank, Network};
use crate::survey::{halted, survey};
use crate::turn::ready_columns;

// Nobody can do anything, where the bank is valid, no packet is under way and the columns in `running` run.
pub(crate) fn columns_rest(b: &Bank, running: u16) -> bool
    requires { (b.now.tree.columns ≤ 16) × (running ≡ running_of b.now) }
    ensures { result ≡ columns_rest b.now }
{
    let t = b.tree;
    ready_columns(b, halted(t.columns, running)) == 0
}

// Whether nothing is left to do. A bank that every step refuses is at rest where no packet is under way.
pub fn at_rest(b: Bank, network: &Network) -> bool
    ensures { result ≡ is_at_rest (state b network.now.heads network.now.doors) }
{
    if b.count != 0 {
        return false;
    }
    match survey(&b, &network.heads) {
        Ok(running) => columns_rest(&b, running),
        Err(_) => true,
    }
}
