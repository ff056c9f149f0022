// Which step is refused, and by what. Each step has its own conditions in document 01's order, listed by one function. No two steps have the same, so that these are
// alike in form alone.
ghost use Rattle.std.specs.Prelude.{◌≡◌};
ghost use Rattle.column.specs.Refusals.{first, refusal_of};
ghost use Rattle.column.specs.Columns.{idle, watched, may_acknowledge};
ghost use Rattle.column.specs.Steps.{packet_refusal, order_conditions, send_conditions, take_conditions};
ghost use Rattle.column.specs.Steps.{ack_conditions, all_conditions, note_conditions, note_refusal, halt_refusal};

use crate::error::Refusal;
use crate::members::has;
use crate::packet::{HIGHEST, Packet, is_message, receiver, sender};
use crate::state::{Column, check_validity};
use crate::tree::Tree;

fn idle(c: Column) -> bool
    ensures { result ≡ idle c }
{
    (c.send == 0) & (c.awaited == 0)
}

// Whose halt, once it is noted, lets the column take over the bank: the root's, or that of the one that sent its record.
pub fn watched(t: Tree, c: Column) -> usize
    ensures { result ≡ watched t c }
{
    if t.watch {
        return c.sender;
    }
    t.root
}

// Whether column i may acknowledge to those that it owes: it neither sends nor awaits, or its goal is the whole bank; of the root, where
// senders are watched, only the former.
pub fn may_acknowledge(t: Tree, i: usize, c: Column) -> bool
    ensures { result ≡ may_acknowledge t i c }
{
    (c.whole & !(t.watch & (i == t.root))) | idle(c)
}

// Of an order to column i: 4 where that is not the root, 5, 7 while it sends or awaits, or owes where senders are watched, 8 at the highest number.
pub(crate) fn check_order(t: Tree, i: usize, c: Column) -> Result<(), Refusal>
    ensures { refusal_of result ≡ first (order_conditions t i c) }
{
    if i != t.root {
        return Err(Refusal::OutOfBank);
    }
    if !c.running {
        return Err(Refusal::Halted);
    }
    if !idle(c) {
        return Err(Refusal::OrderTooEarly);
    }
    if t.watch & (c.owed != 0) {
        return Err(Refusal::OrderTooEarly);
    }
    if c.number == HIGHEST {
        return Err(Refusal::LastNumber);
    }
    Ok(())
}

// Of a send by column i: 5, 6 where nobody is to be sent to.
pub(crate) fn check_send(t: Tree, i: usize, c: Column) -> Result<(), Refusal>
    ensures { refusal_of result ≡ first (send_conditions t i c) }
{
    if !c.running {
        return Err(Refusal::Halted);
    }
    if c.send == 0 {
        return Err(Refusal::NotNow);
    }
    Ok(())
}

// 4 where row 4 refuses the packet. Neither the tree nor the addressee is tested.
#[tactic(auto, unfolding(crate::specs::Steps::packet_refusal))]
pub(crate) fn check_packet(t: Tree, p: Packet) -> Result<(), Refusal>
    ensures { refusal_of result ≡ packet_refusal t p }
{
    let from = sender(p);
    let to = receiver(p);
    if t.columns <= from {
        return Err(Refusal::OutOfBank);
    }
    if t.columns <= to {
        return Err(Refusal::OutOfBank);
    }
    if from == to {
        return Err(Refusal::OutOfBank);
    }
    if is_message(p) & ((to == t.root) & !t.watch) {
        return Err(Refusal::OutOfBank);
    }
    Ok(())
}

// Of a packet given to column i: 4 where it is for another one, 5.
pub(crate) fn check_take(t: Tree, i: usize, c: Column, p: Packet) -> Result<(), Refusal>
    ensures { refusal_of result ≡ first (take_conditions t i c p) }
{
    if receiver(p) != i {
        return Err(Refusal::OutOfBank);
    }
    if !c.running {
        return Err(Refusal::Halted);
    }
    Ok(())
}

// Of an acknowledgement by column i: 5, 6 where nobody is owed, or it may not acknowledge yet.
pub(crate) fn check_ack(t: Tree, i: usize, c: Column) -> Result<(), Refusal>
    ensures { refusal_of result ≡ first (ack_conditions t i c) }
{
    if !c.running {
        return Err(Refusal::Halted);
    }
    if c.owed == 0 {
        return Err(Refusal::NotNow);
    }
    if !may_acknowledge(t, i, c) {
        return Err(Refusal::NotNow);
    }
    Ok(())
}

// Of a takeover by column i: 5, 6 at the root, with the one that it watches not noted, after another takeover, or while it sends or awaits.
pub(crate) fn check_all(t: Tree, i: usize, c: Column) -> Result<(), Refusal>
    ensures { refusal_of result ≡ first (all_conditions t i c) }
{
    if !c.running {
        return Err(Refusal::Halted);
    }
    if i == t.root {
        return Err(Refusal::NotNow);
    }
    if !has(c.noted, watched(t, c)) {
        return Err(Refusal::NotNow);
    }
    if c.whole {
        return Err(Refusal::NotNow);
    }
    if !idle(c) {
        return Err(Refusal::NotNow);
    }
    Ok(())
}

// Of a note of column j by column i: 4 of a j that the bank has not, 5, 6 where j is i or is noted already.
pub(crate) fn check_note_alone(t: Tree, i: usize, c: Column, j: usize) -> Result<(), Refusal>
    ensures { refusal_of result ≡ first (note_conditions t i c j) }
{
    if t.columns <= j {
        return Err(Refusal::OutOfBank);
    }
    if !c.running {
        return Err(Refusal::Halted);
    }
    if j == i {
        return Err(Refusal::NotNow);
    }
    if has(c.noted, j) {
        return Err(Refusal::NotNow);
    }
    Ok(())
}

// Of a note of column j by column i: 2 to 5, 6 where j is i or is noted already. That j is halted is believed.
#[tactic(auto, unfolding(crate::specs::Steps::note_refusal))]
pub fn check_note(t: Tree, i: usize, c: Column, j: usize) -> Result<(), Refusal>
    ensures { refusal_of result ≡ note_refusal t i c j }
{
    check_validity(t, i, c)?;
    check_note_alone(t, i, c, j)
}

// Of a halt of column i: 2 to 5.
#[tactic(auto, unfolding(crate::specs::Steps::halt_refusal))]
pub fn check_halt(t: Tree, i: usize, c: Column) -> Result<(), Refusal>
    ensures { refusal_of result ≡ halt_refusal t i c }
{
    check_validity(t, i, c)?;
    if c.running {
        return Ok(());
    }
    Err(Refusal::Halted)
}
