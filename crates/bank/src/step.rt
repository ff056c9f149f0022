// The steps of a bank: refused and unchanged, or the core's step on one place with its packet. Each has a function beside `perform`, by which the documents name it.
// The papers name the steps, so that a step is chosen by a match. Other functions here are alike in form alone: each calls another step of the core, or tests
// another thing. A tree, a column's number and what it holds go apart, since one tree serves all columns, and a struct would be made for each call; so do who
// runs, the count and the network, and the bank, which is handed over, beside the network, which is lent.
ghost use Rattle.std.specs.Prelude.{◌≡◌, true, ◌≤◌, ◌<◌};
ghost use Rattle.bank.specs.Banks.{state};
ghost use Rattle.bank.specs.inner.Changes.{StepsCore, Takes};
ghost use Rattle.bank.specs.StepKinds.{is_move, is_take};
ghost use Rattle.bank.specs.inner.Moves.{place_in, Moving, Moves};
ghost use Rattle.bank.specs.Pages.{write};
ghost use Rattle.bank.specs.Performs.{perform};
ghost use Rattle.bank.specs.Returns.{back};
ghost use Rattle.bank.specs.Steps.{outcome_meant, order, send, take, ack, all, note, halt};
ghost use Rattle.bank.specs.declared.bank.Step.TheVariants.{Note};

use crate::bank::{Bank, Network, Step};
use crate::opening::{acting, check_opening, receiver_at};
use crate::page::write_byte;
use crate::returning::bring_back;
use crate::settling::{Change, settle, settle_taken};
use crate::strip::{halting_set, stop};
use crate::survey::survey;
use crate::words::packet;
use column::error::Refusal;
use column::members::has;
use column::outcome::Outcome;
use column::refusal::check_note;
use column::state::Column;
use column::tree::Tree;
use column::unchecked_for_bank;

// The core believes that the column to note is halted; the bank tests it.
fn noted(t: Tree, running: u16, i: usize, c: Column, j: usize) -> Result<Outcome, Refusal>
    ensures { StepsCore result t running (Note i j) i c }
{
    if !has(running, j) {
        return unchecked_for_bank::note(t, i, c, j);
    }
    check_note(t, i, c, j)?;
    Err(Refusal::NotNow)
}

// What the core makes of column i, which is c, in a valid bank whose columns in `running` run.
fn core_step(t: Tree, running: u16, x: Step, i: usize, c: Column) -> Result<Outcome, Refusal>
    ensures { StepsCore result t running x i c }
{
    match x {
        Step::Order(given) => unchecked_for_bank::order(t, i, c, given),
        Step::Send(_) => unchecked_for_bank::send(t, i, c),
        Step::Ack(_) => unchecked_for_bank::ack(t, i, c),
        Step::All(_) => unchecked_for_bank::all(t, i, c),
        Step::Note(_, j) => noted(t, running, i, c, j),
        // Never given: a take, a halt, a return or a write. An `Option` here would have to be taken apart where it is never none.
        _ => Err(Refusal::NoPacket),
    }
}

// The packet at a place goes to column i, which is c and its receiver.
fn taken(
    t: Tree,
    running: u16,
    place: usize,
    i: usize,
    c: Column,
    count: usize,
    network: &mut Network,
) -> Result<Change, Refusal>
    requires { (place < count) × (count ≤ 512) }
    ensures { Takes result t running place i c count network.old.heads network.old.doors network.new.heads network.new.doors }
{
    let p = packet(network.heads[place], network.doors[place]);
    let o = unchecked_for_bank::take(t, i, c, p)?;
    settle_taken(running, place, o, count, network)
}

// What the step x makes of column i, which is c, and of the network, in a valid bank.
pub(crate) fn change(
    t: Tree,
    running: u16,
    x: Step,
    i: usize,
    c: Column,
    count: usize,
    network: &mut Network,
) -> Result<Change, Refusal>
    requires { (is_move x ≡ true) × ((count ≤ 512) × (is_take x ≡ true → place_in x < count)) }
    ensures { Moves result t running x i c count network.old.heads network.old.doors network.new.heads network.new.doors }
{
    if let Step::Take(place) = x {
        return taken(t, running, place, i, c, count, network);
    }
    let o = core_step(t, running, x, i, c)?;
    settle(running, o, count, network)
}

// The step x of column i.
fn act(mut b: Bank, x: Step, i: usize, network: &mut Network) -> Result<Bank, Refusal>
    requires { Moving (state b network.old.heads network.old.doors) x i }
    ensures { outcome_meant b result network.new.heads network.new.doors ≡ perform (state b network.old.heads network.old.doors) x }
{
    let t = b.tree;
    let running = survey(&b, &network.heads)?;
    check_opening(t.columns, x, i, b.count)?;
    let r = change(t, running, x, i, b.columns[i], b.count, network)?;
    b.columns[i] = r.column;
    b.count = r.count;
    Ok(b)
}

// The halt of a set of columns.
fn halt_columns(mut b: Bank, m: u32, network: &mut Network) -> Result<Bank, Refusal>
    ensures { outcome_meant b result network.new.heads network.new.doors ≡ halt (state b network.old.heads network.old.doors) m }
{
    let t = b.tree;
    let running = survey(&b, &network.heads)?;
    let set = halting_set(t.columns, running, m)?;
    b.count = network.vanish(set, b.count);
    Ok(stop(b, set))
}

// The bank after any of the nine steps.
pub fn perform(b: Bank, x: Step, network: &mut Network) -> Result<Bank, Refusal>
    ensures { outcome_meant b result network.new.heads network.new.doors ≡ perform (state b network.old.heads network.old.doors) x }
{
    match x {
        Step::Halt(m) => halt_columns(b, m, network),
        Step::Back(j) => bring_back(b, j, &network.heads),
        Step::Write(i, offset, value) => write_byte(b, i, offset, value, &network.heads),
        _ => {
            let i = acting(b.tree, x, &network.heads);
            act(b, x, i, network)
        }
    }
}

// The bank with these doors given to its root under the next number.
pub fn order(b: Bank, given: u64, network: &mut Network) -> Result<Bank, Refusal>
    ensures { outcome_meant b result network.new.heads network.new.doors ≡ order (state b network.old.heads network.old.doors) given }
{
    let t = b.tree;
    act(b, Step::Order(given), t.root, network)
}

// The bank after column i served the earliest of those it is to send to; a message to a running one is put.
pub fn send(b: Bank, i: usize, network: &mut Network) -> Result<Bank, Refusal>
    ensures { outcome_meant b result network.new.heads network.new.doors ≡ send (state b network.old.heads network.old.doors) i }
{
    act(b, Step::Send(i), i, network)
}

// The bank after the packet at a place went to its receiver.
pub fn take(b: Bank, place: usize, network: &mut Network) -> Result<Bank, Refusal>
    ensures { outcome_meant b result network.new.heads network.new.doors ≡ take (state b network.old.heads network.old.doors) place }
{
    let i = receiver_at(place, &network.heads);
    act(b, Step::Take(place), i, network)
}

// The bank after column i acknowledged its record to the lowest owed.
pub fn ack(b: Bank, i: usize, network: &mut Network) -> Result<Bank, Refusal>
    ensures { outcome_meant b result network.new.heads network.new.doors ≡ ack (state b network.old.heads network.old.doors) i }
{
    act(b, Step::Ack(i), i, network)
}

// The bank after column i took over.
pub fn all(b: Bank, i: usize, network: &mut Network) -> Result<Bank, Refusal>
    ensures { outcome_meant b result network.new.heads network.new.doors ≡ all (state b network.old.heads network.old.doors) i }
{
    act(b, Step::All(i), i, network)
}

// The bank after column i noted that j is halted.
pub fn note(b: Bank, i: usize, j: usize, network: &mut Network) -> Result<Bank, Refusal>
    ensures { outcome_meant b result network.new.heads network.new.doors ≡ note (state b network.old.heads network.old.doors) i j }
{
    act(b, Step::Note(i, j), i, network)
}

// The bank with every column of a set halted, and without the packets to them.
pub fn halt(b: Bank, m: u32, network: &mut Network) -> Result<Bank, Refusal>
    ensures { outcome_meant b result network.new.heads network.new.doors ≡ halt (state b network.old.heads network.old.doors) m }
{
    halt_columns(b, m, network)
}

// The bank with halted column j running again.
pub fn back(b: Bank, j: usize, network: &Network) -> Result<Bank, Refusal>
    ensures { outcome_meant b result network.now.heads network.now.doors ≡ back (state b network.now.heads network.now.doors) j }
{
    bring_back(b, j, &network.heads)
}

// The bank with a byte written to the page of column i, a halted one too.
pub fn write(
    b: Bank,
    i: usize,
    offset: usize,
    value: u8,
    network: &Network,
) -> Result<Bank, Refusal>
    ensures { outcome_meant b result network.now.heads network.now.doors ≡ write (state b network.now.heads network.now.doors) i offset value }
{
    write_byte(b, i, offset, value, &network.heads)
}
