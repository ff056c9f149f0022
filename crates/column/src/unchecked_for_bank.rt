// The steps for the bank, which has tested the tree, its columns and its packets by rows 2 to 4: nothing of that is tested again. No buyer's: left untested are
// whether `t` is a tree, whether i and the members of its sets are columns, whether it owes itself, the root's goal, and of a packet its ends, its addressee and
// whether it is a message to the root. Handed in what those rows refuse, a step may accept it; it still answers, and reaches outside nothing.
ghost use Rattle.std.specs.Prelude.{◌≡◌};
ghost use Rattle.column.specs.Steps.{outcome_meant};
ghost use Rattle.column.specs.Unchecked.{order_unchecked, send_unchecked, take_unchecked, ack_unchecked, all_unchecked, note_unchecked};

use crate::effect::{
    ack_effect, all_effect, check_bounds, note_effect, order_effect, send_effect, take_effect,
};
use crate::error::Refusal;
use crate::outcome::Outcome;
use crate::packet::Packet;
use crate::refusal::{check_ack, check_all, check_note_alone, check_order, check_send, check_take};
use crate::state::Column;
use crate::tree::Tree;

// The root with the next number, these doors, and its children to send to.
pub fn order(t: Tree, i: usize, c: Column, doors: u64) -> Result<Outcome, Refusal>
    ensures { outcome_meant c result ≡ order_unchecked t i c doors }
{
    check_order(t, i, c)?;
    check_bounds(t, i, i)?;
    Ok(order_effect(t, i, c, doors))
}

// Column i with the earliest served of those to send to, and the message for it, if there is one to put.
pub fn send(t: Tree, i: usize, c: Column) -> Result<Outcome, Refusal>
    ensures { outcome_meant c result ≡ send_unchecked t i c }
{
    check_send(t, i, c)?;
    send_effect(t, i, c)
}

// Column i after a packet, what it answers at once, and whether the packet is left for another take.
pub fn take(t: Tree, i: usize, c: Column, p: Packet) -> Result<Outcome, Refusal>
    ensures { outcome_meant c result ≡ take_unchecked t i c p }
{
    check_take(t, i, c, p)?;
    take_effect(t, i, c, p)
}

// Column i with the lowest owed struck out, and the acknowledgement for that one.
pub fn ack(t: Tree, i: usize, c: Column) -> Result<Outcome, Refusal>
    ensures { outcome_meant c result ≡ ack_unchecked t i c }
{
    check_ack(t, i, c)?;
    ack_effect(t, i, c)
}

// Column i with the whole bank as its goal, and the root alone to send to.
pub fn all(t: Tree, i: usize, c: Column) -> Result<Outcome, Refusal>
    ensures { outcome_meant c result ≡ all_unchecked t i c }
{
    check_all(t, i, c)?;
    all_effect(t, i, c)
}

// Column i with j noted; where j was awaited, its children are to be sent to instead.
pub fn note(t: Tree, i: usize, c: Column, j: usize) -> Result<Outcome, Refusal>
    ensures { outcome_meant c result ≡ note_unchecked t i c j }
{
    check_note_alone(t, i, c, j)?;
    note_effect(t, i, c, j)
}
