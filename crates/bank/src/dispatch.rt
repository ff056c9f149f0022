// The dispatcher: it takes steps until the bank rests. What a turn is handed goes apart, from the tree to the network: a struct of it would be made for each turn,
// and taken apart in it. The steps are the papers', and chosen by a match.
ghost use Rattle.std.specs.Prelude.{◌≡◌, ◌≤◌, ◌<◌, true};
ghost use Rattle.column.specs.Steps.{outcome_meant};
ghost use Rattle.bank.specs.Banks.{state, running_of, bank_refusal};
ghost use Rattle.bank.specs.Dispatch.{dispatch_outcome, Dispatches};
ghost use Rattle.bank.specs.StepKinds.{is_take};
ghost use Rattle.bank.specs.inner.Turning.{acting_in, turn_effect, TakesTurn, Turns};

use crate::bank::{Bank, Network, Step};
use crate::kind::is_take;
use crate::settling::{Change, settle, settle_taken};
use crate::survey::{halted, survey};
use crate::turn::{ready_after, ready_columns, step_of};
use crate::validity::newest_valid;
use crate::words::{packet, receiver_in};
use column::effect::{ack_effect, all_effect, note_effect, send_effect, take_effect};
use column::error::Refusal;
use column::members::lowest;
use column::outcome::Outcome;
use column::packet::CAPACITY;
use column::state::Column;
use column::tree::Tree;

// The bank after the steps that were taken, and how many they were.
#[derive(Clone, Copy)]
pub struct Dispatched {
    pub bank: Bank,
    pub steps: usize,
}

// The column whose place the step of a turn rewrites; a turn takes no packet but the oldest. `acting` of opening.rt is another: it is lent all heads and tests the
// place, and it has the root for an order, which no turn gives.
fn acting(x: Step, oldest: u64) -> usize
    ensures { result ≡ acting_in x oldest }
{
    let to = receiver_in(oldest);
    match x {
        Step::Send(i) | Step::Ack(i) | Step::All(i) | Step::Note(i, _) => i,
        _ => to,
    }
}

// What the turn's step x, which takes no packet, makes of column i, which is c: it is accepted, and is not tested again, as `core_step` of step.rt tests it.
fn effect_of(t: Tree, x: Step, i: usize, c: Column) -> Result<Outcome, Refusal>
    ensures { outcome_meant c result ≡ turn_effect t x i c }
{
    match x {
        Step::Send(_) => send_effect(t, i, c),
        Step::Ack(_) => ack_effect(t, i, c),
        Step::All(_) => all_effect(t, i, c),
        Step::Note(_, j) => note_effect(t, i, c, j),
        // No turn takes another step. An `Option` here would have to be taken apart where it is never none.
        _ => Err(Refusal::NoPacket),
    }
}

// What the turn's step x makes of column i, which is c, and of the network, in a valid bank; a take asks for a packet.
fn take_turn(
    t: Tree,
    running: u16,
    x: Step,
    i: usize,
    c: Column,
    count: usize,
    network: &mut Network,
) -> Result<Change, Refusal>
    requires { (count ≤ 512) × (is_take x ≡ true → 0 < count) }
    ensures { TakesTurn result t running x i c count network.old.heads network.old.doors network.new.heads network.new.doors }
{
    if is_take(x) {
        let p = packet(network.heads[0], network.doors[0]);
        let o = take_effect(t, i, c, p)?;
        return settle_taken(running, 0, o, count, network);
    }
    let o = effect_of(t, x, i, c)?;
    settle(running, o, count, network)
}

// Steps of a valid bank until it rests, until the limit, or until one is refused. A step changes one column, which keeps row 4, and puts one
// packet at most, so that this alone is tested for the next turn, who runs stays the same, and that column alone may become or cease to be ready.
fn take_turns(mut b: Bank, running: u16, limit: usize, network: &mut Network) -> Dispatched
    requires { (bank_refusal (state b network.old.heads network.old.doors) ≡ 0) × (running ≡ running_of b) }
    ensures { Turns result network.new.heads network.new.doors limit (state b network.old.heads network.old.doors) }
{
    let t = b.tree;
    let halted_columns = halted(t.columns, running);
    let mut ready = ready_columns(&b, halted_columns);
    for steps in 0..limit {
        if (ready == 0) & (b.count == 0) {
            return Dispatched { bank: b, steps };
        }
        let full = !(b.count < CAPACITY);
        // Where nobody is ready, column 0: its step is the take.
        let k = lowest(ready) % 16;
        let x = step_of(t, full, halted_columns, k, b.columns[k]);
        let i = acting(x, network.heads[0]);
        let Ok(r) = take_turn(t, running, x, i, b.columns[i], b.count, network) else {
            return Dispatched { bank: b, steps };
        };
        let c = r.column;
        b.columns[i] = c;
        b.count = r.count;
        if !newest_valid(t.columns, t.root, t.watch, running, b.count, &network.heads) {
            return Dispatched {
                bank: b,
                steps: steps + 1,
            };
        }
        ready = ready_after(ready, t, full, halted_columns, i, c);
        if full != !(b.count < CAPACITY) {
            ready = ready_columns(&b, halted_columns);
        }
    }
    Dispatched {
        bank: b,
        steps: limit,
    }
}

// "takes steps until rest, until the limit, or until the turn's step is refused": the bank after them and their count, or by which of 2, 3 and 4
// the bank is refused.
pub fn dispatch(b: Bank, limit: usize, network: &mut Network) -> Result<Dispatched, Refusal>
    ensures { Dispatches result network.new.heads network.new.doors limit (state b network.old.heads network.old.doors) (dispatch_outcome limit (state b network.old.heads network.old.doors)) }
{
    let running = survey(&b, &network.heads)?;
    Ok(take_turns(b, running, limit, network))
}
