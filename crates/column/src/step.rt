// The steps of a lone column: refused, or its effect. The tree, the column's number and what it holds come apart: a bank has one tree for all, and what a column
// holds in a place of an array, so that a struct of the three would be made for each call. All but halt test the tree and the state apart: a function that tests
// both is so large that the compiler calls it, and the column would be copied for the call.
ghost use Rattle.std.specs.Prelude.{◌≡◌};
ghost use Rattle.column.specs.Steps.{outcome_meant, order, send, take, ack, all, note, halt};

use crate::effect::halt_effect;
use crate::error::Refusal;
use crate::outcome::Outcome;
use crate::packet::Packet;
use crate::refusal::{check_halt, check_packet};
use crate::state::{Column, check_state};
use crate::topology::check_tree;
use crate::tree::Tree;
use crate::unchecked_for_bank;

// The root with the next number, these doors, and its children to send to.
#[tactic(auto, unfolding(crate::specs::Steps::order_refusal), using(crate::specs::laws::UncheckedLaws::order_unchecked_lem))]
pub fn order(t: Tree, i: usize, c: Column, doors: u64) -> Result<Outcome, Refusal>
    ensures { outcome_meant c result ≡ order t i c doors }
{
    check_tree(t)?;
    check_state(t, i, c)?;
    unchecked_for_bank::order(t, i, c, doors)
}

// Column i with the earliest served of those to send to, and the message for it, if there is one to put.
#[tactic(auto, unfolding(crate::specs::Steps::send_refusal), using(crate::proofs::laws::UncheckedLaws::send_unchecked_lem))]
pub fn send(t: Tree, i: usize, c: Column) -> Result<Outcome, Refusal>
    ensures { outcome_meant c result ≡ send t i c }
{
    check_tree(t)?;
    check_state(t, i, c)?;
    unchecked_for_bank::send(t, i, c)
}

// Column i after a packet, what it answers at once, and whether the packet is left for another take.
#[tactic(auto, unfolding(crate::specs::Steps::take_refusal), using(crate::specs::laws::UncheckedLaws::take_unchecked_lem))]
pub fn take(t: Tree, i: usize, c: Column, p: Packet) -> Result<Outcome, Refusal>
    ensures { outcome_meant c result ≡ take t i c p }
{
    check_tree(t)?;
    check_state(t, i, c)?;
    check_packet(t, p)?;
    unchecked_for_bank::take(t, i, c, p)
}

// Column i with the lowest owed struck out, and the acknowledgement for that one.
#[tactic(auto, unfolding(crate::specs::Steps::ack_refusal), using(crate::specs::laws::UncheckedLaws::ack_unchecked_lem))]
pub fn ack(t: Tree, i: usize, c: Column) -> Result<Outcome, Refusal>
    ensures { outcome_meant c result ≡ ack t i c }
{
    check_tree(t)?;
    check_state(t, i, c)?;
    unchecked_for_bank::ack(t, i, c)
}

// Column i with the whole bank as its goal, and the root alone to send to.
#[tactic(auto, unfolding(crate::specs::Steps::all_refusal), using(crate::specs::laws::UncheckedLaws::all_unchecked_lem))]
pub fn all(t: Tree, i: usize, c: Column) -> Result<Outcome, Refusal>
    ensures { outcome_meant c result ≡ all t i c }
{
    check_tree(t)?;
    check_state(t, i, c)?;
    unchecked_for_bank::all(t, i, c)
}

// Column i with j noted; where j was awaited, its children are to be sent to instead.
#[tactic(auto, unfolding(crate::specs::Steps::note_refusal), using(crate::specs::laws::UncheckedLaws::note_unchecked_lem))]
pub fn note(t: Tree, i: usize, c: Column, j: usize) -> Result<Outcome, Refusal>
    ensures { outcome_meant c result ≡ note t i c j }
{
    check_tree(t)?;
    check_state(t, i, c)?;
    unchecked_for_bank::note(t, i, c, j)
}

// Column i halted, with all else that it holds as it was.
#[tactic(auto, unfolding(crate::specs::Steps::halt_refusal))]
pub fn halt(t: Tree, i: usize, c: Column) -> Result<Outcome, Refusal>
    ensures { outcome_meant c result ≡ halt t i c }
{
    check_halt(t, i, c)?;
    Ok(halt_effect(c))
}
