// What each step does once it is accepted. The bank's, whose dispatcher chooses a step that is accepted and tests it no second time, and no buyer's: neither rows
// 2 to 4 nor the step's own conditions are tested, but for what keeps a number inside a mask. Handed in what those refuse, a step may accept it; it still
// answers, and reaches outside nothing. Each step has its effect; no two do the same. Numbers below sixteen are asked for one by one, as `sets` says, and the tree, a
// number and its column come apart, as `step` says.
ghost use Rattle.std.specs.Prelude.{◌≡◌, ◌<◌, ◌≤◌, OnOk};
ghost use Rattle.column.specs.declared.packet.Packet.TheVariants.{Acknowledgement};
ghost use Rattle.column.specs.Refusals.{refusal_of};
ghost use Rattle.column.specs.Columns.{highest};
ghost use Rattle.column.specs.Steps.{stepped, outcome_meant, order_effect, acknowledgement_effect, acknowledge_lowest, message_effect, halt_effect};
ghost use Rattle.column.specs.inner.Bounds.{Bounds};
ghost use Rattle.column.specs.Unchecked.{bounds_refusal, bounded_send, bounded_take, bounded_ack, bounded_all, bounded_note};

use crate::choice::choose;
use crate::error::Refusal;
use crate::members::{has, lowest};
use crate::outcome::{Answer, Outcome};
use crate::packet::{Number, Packet, sender};
use crate::page::{HALT_NOTED, RECORD_RECEIVED, TOOK_OVER};
use crate::sets::{insert, single, without};
use crate::state::Column;
use crate::traversal::children_of;
use crate::tree::Tree;

// 4 where the tree has more than sixteen columns, or either is none of sixteen.
pub(crate) fn check_bounds(t: Tree, i: usize, k: usize) -> Result<(), Refusal>
    ensures refuses { refusal_of result ≡ bounds_refusal t i k }
    ensures bounds { OnOk result (Bounds t i k) }
{
    if !((t.columns <= 16) & ((i < 16) & (k < 16))) {
        return Err(Refusal::OutOfBank);
    }
    Ok(())
}

fn acknowledgement(i: usize, k: usize, number: Number) -> Packet
    requires { (i < 16) × (k < 16) }
    ensures { result ≡ Acknowledgement i k number }
{
    let from = i as u8;
    let to = k as u8;
    Packet::Acknowledgement { from, to, number }
}

// The root holds the order under the next number, and is to send it to its children.
#[tactic(auto, unfolding(crate::specs::Steps::order_effect))]
pub(crate) fn order_effect(t: Tree, i: usize, mut c: Column, doors: u64) -> Outcome
    requires { (t.columns ≤ 16) × ((i < 16) × (c.number < highest)) }
    ensures { stepped result ≡ order_effect t i c doors }
{
    c.number += 1;
    c.doors = doors;
    c.send = children_of(t, i);
    c.pending |= RECORD_RECEIVED;
    Outcome::done(c)
}

// The earliest that the column is to send to is served: passed over where it is the column itself, its children to be sent to where it is noted, else sent a
// message and awaited.
#[tactic(auto, unfolding(crate::specs::Steps::send_effect))]
pub fn send_effect(t: Tree, i: usize, mut c: Column) -> Result<Outcome, Refusal>
    ensures { outcome_meant c result ≡ bounded_send t i c }
{
    let k = choose(t, c.send);
    check_bounds(t, i, k)?;
    c.send = without(c.send, k);
    if k == i {
        return Ok(Outcome::done(c));
    }
    if has(c.noted, k) {
        c.send |= children_of(t, k);
        return Ok(Outcome::done(c));
    }
    c.awaited = insert(c.awaited, k);
    let from = i as u8;
    let to = k as u8;
    Ok(Outcome::putting(
        c,
        Packet::Message {
            from,
            to,
            number: c.number,
            doors: c.doors,
        },
    ))
}

#[tactic(auto, unfolding(crate::specs::Steps::acknowledgement_effect))]
fn acknowledgement_effect(mut c: Column, from: usize, number: Number) -> Outcome
    requires { from < 16 }
    ensures { stepped result ≡ acknowledgement_effect c from number }
{
    if number == c.number {
        c.awaited = without(c.awaited, from);
    }
    Outcome::done(c)
}

#[tactic(auto, using(crate::specs::laws::Digits::lowest_lt))]
fn acknowledge_lowest(i: usize, mut c: Column, left: bool) -> Outcome
    requires { (i < 16) × (0 < c.owed) }
    ensures { stepped result ≡ acknowledge_lowest i c left }
{
    let k = lowest(c.owed);
    c.owed = without(c.owed, k);
    let p = acknowledgement(i, k, c.number);
    if left {
        return Outcome {
            column: c,
            answer: Answer::Left(p),
        };
    }
    Outcome::putting(c, p)
}

#[tactic(auto, unfolding(crate::specs::Steps::message_effect, crate::specs::Steps::receive_effect))]
fn message_effect(
    t: Tree,
    i: usize,
    mut c: Column,
    from: usize,
    number: Number,
    doors: u64,
) -> Outcome
    requires { (t.columns ≤ 16) × ((i < 16) × (from < 16)) }
    ensures { stepped result ≡ message_effect t i c from number doors }
{
    if number == c.number {
        c.owed = insert(c.owed, from);
        return Outcome::done(c);
    }
    if number < c.number {
        return Outcome::putting(c, acknowledgement(i, from, number));
    }
    if c.owed != 0 {
        return acknowledge_lowest(i, c, true);
    }
    c.number = number;
    c.doors = doors;
    c.send = children_of(t, i);
    c.awaited = 0;
    c.owed = single(from);
    c.whole = i == t.root;
    c.sender = from;
    c.pending |= RECORD_RECEIVED;
    Outcome::done(c)
}

// What a packet makes of the column that it is for. A packet is one of the two kinds of the papers, and each does something else.
pub fn take_effect(t: Tree, i: usize, c: Column, p: Packet) -> Result<Outcome, Refusal>
    ensures { outcome_meant c result ≡ bounded_take t i c p }
{
    let from = sender(p);
    check_bounds(t, i, from)?;
    let outcome = match p {
        Packet::Message { number, doors, .. } => message_effect(t, i, c, from, number, doors),
        Packet::Acknowledgement { number, .. } => acknowledgement_effect(c, from, number),
    };
    Ok(outcome)
}

// The lowest owed is sent its acknowledgement, and owed no longer.
#[tactic(auto, unfolding(crate::specs::Steps::ack_effect))]
pub fn ack_effect(t: Tree, i: usize, c: Column) -> Result<Outcome, Refusal>
    ensures { outcome_meant c result ≡ bounded_ack t i c }
{
    check_bounds(t, i, lowest(c.owed))?;
    Ok(acknowledge_lowest(i, c, false))
}

// The column takes over: it is to send to the root, and its goal is the whole bank.
#[tactic(auto, unfolding(crate::specs::Steps::all_effect))]
pub fn all_effect(t: Tree, i: usize, mut c: Column) -> Result<Outcome, Refusal>
    ensures { outcome_meant c result ≡ bounded_all t i c }
{
    check_bounds(t, i, t.root)?;
    c.send = single(t.root);
    c.whole = true;
    c.pending |= TOOK_OVER;
    Ok(Outcome::done(c))
}

// Column j is noted; where it was awaited, its children are to be sent to in its place.
#[tactic(auto, unfolding(crate::specs::Steps::note_effect))]
pub fn note_effect(t: Tree, i: usize, mut c: Column, j: usize) -> Result<Outcome, Refusal>
    ensures { outcome_meant c result ≡ bounded_note t i c j }
{
    check_bounds(t, i, j)?;
    c.noted = insert(c.noted, j);
    c.pending |= HALT_NOTED;
    if has(c.awaited, j) {
        c.awaited = without(c.awaited, j);
        c.send |= children_of(t, j);
    }
    Ok(Outcome::done(c))
}

// The column stops, and keeps all that it holds.
#[tactic(auto, unfolding(crate::specs::Steps::halt_effect))]
pub fn halt_effect(mut c: Column) -> Outcome
    ensures { stepped result ≡ halt_effect c }
{
    c.running = false;
    Outcome::done(c)
}
