// What every step tests first: the tree, then row 4 of every column and of every packet. The parts of a tree that a packet is tested by come apart: with the tree
// lent, a step of an order dispatched to rest took 448 instructions in place of 406, and its row has a bar. Only as many heads count as the bank says.
ghost use Rattle.std.specs.Prelude.{◌≡◌, ◌≤◌};
ghost use Rattle.column.specs.Refusals.{refusal_of};
ghost use Rattle.bank.specs.inner.Surveys.{head_valid};
ghost use Rattle.bank.specs.Banks.{RefusesBank, RefusesActing};
ghost use Rattle.bank.specs.inner.Changes.{TellsNewest};

use crate::bank::{Bank, Words};
use crate::survey::{ends_valid, survey};
use crate::words::receiver_in;
use column::error::Refusal;
use column::members::has;

// Row 4 of a packet, by its head.
fn head_valid(columns: usize, root: usize, watch: bool, running: u16, head: u64) -> bool
    requires { columns ≤ 16 }
    ensures { result ≡ head_valid columns root watch running head }
{
    let to = receiver_in(head);
    ends_valid(columns, root, watch, head) & has(running, to)
}

// 2, 3 or 4 of the bank, which every step tests first. The doors that packets carry are not looked at.
pub fn check_bank(b: Bank, heads: &Words) -> Result<(), Refusal>
    ensures { RefusesBank (refusal_of result) b heads.now }
{
    survey(&b, heads)?;
    Ok(())
}

// The same, and 4 of a column that the bank has not.
pub fn check_acting(b: Bank, i: usize, heads: &Words) -> Result<(), Refusal>
    ensures { RefusesActing (refusal_of result) b heads.now i }
{
    check_bank(b, heads)?;
    let t = b.tree;
    if t.columns <= i {
        return Err(Refusal::OutOfBank);
    }
    Ok(())
}

// Row 4 of the newest packet, where there is one: all of what a step can have broken.
pub(crate) fn newest_valid(
    columns: usize,
    root: usize,
    watch: bool,
    running: u16,
    count: usize,
    heads: &Words,
) -> bool
    requires { (columns ≤ 16) × (count ≤ 512) }
    ensures { TellsNewest result columns root watch running count heads.now }
{
    if count == 0 {
        return true;
    }
    head_valid(columns, root, watch, running, heads[count - 1])
}
