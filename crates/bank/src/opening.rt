// Whose step it is, and what a step tests of itself before it changes the place of that column: that the bank has it, or the packet that is to be taken. Where
// nobody's it is the answer is 0 and no `Option`: the definitions `receiver_at` and `actor_of` of Parts say so, and `acting` is public.
ghost use Rattle.std.specs.Prelude.{◌≡◌};
ghost use Rattle.column.specs.Refusals.{refusal_of};
ghost use Rattle.bank.specs.inner.Moves.{own_opening};
ghost use Rattle.bank.specs.Parts.{receiver_at, actor_of};

use crate::bank::{Step, Words};
use crate::words::receiver_in;
use column::error::Refusal;
use column::packet::CAPACITY;
use column::tree::Tree;

// Whom the packet at a place is for, where there is such a place.
pub(crate) fn receiver_at(place: usize, heads: &Words) -> usize
    ensures { result ≡ receiver_at place heads.now }
{
    if CAPACITY <= place {
        return 0;
    }
    receiver_in(heads[place])
}

// The column whose step it is.
pub fn acting(t: Tree, x: Step, heads: &Words) -> usize
    ensures { result ≡ actor_of t x heads.now }
{
    match x {
        Step::Order(_) => t.root,
        Step::Send(i) | Step::Ack(i) | Step::All(i) | Step::Note(i, _) => i,
        Step::Take(place) => receiver_at(place, heads),
        // A halt, a return and a write go another way.
        _ => 0,
    }
}

// 10 of a place where no packet is to be taken, or 4 of a column that the bank has not.
pub(crate) fn check_opening(columns: usize, x: Step, i: usize, count: usize) -> Result<(), Refusal>
    ensures { refusal_of result ≡ own_opening columns x i count }
{
    if let Step::Take(place) = x {
        if count <= place {
            return Err(Refusal::NoPacket);
        }
        return Ok(());
    }
    if columns <= i {
        return Err(Refusal::OutOfBank);
    }
    Ok(())
}
