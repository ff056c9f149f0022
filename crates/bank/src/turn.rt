// The step of a turn, found by the sets alone, without a test of each candidate. What a turn knows goes apart, from the tree to the column: a struct of the network's
// and the halted columns' part would be made anew whenever the network fills, and taken apart in each function.
ghost use Rattle.std.specs.Prelude.{◌≡◌, ◌≤◌, ◌<◌, cond};
ghost use Rattle.column.specs.Sets.{insert, without};
ghost use Rattle.bank.specs.Banks.{halted_of};
ghost use Rattle.bank.specs.inner.Turning.{fits, can_send, can_ack, can_take_over, step_of, is_ready, ready_of};
ghost use Rattle.bank.specs.declared.bank.Step.TheVariants.{Take};

use crate::bank::{Bank, Step};
use crate::kind::is_take;
use column::choice::choose;
use column::members::{has, lowest};
use column::packet::CAPACITY;
use column::refusal::{may_acknowledge, watched};
use column::state::Column;
use column::tree::Tree;

fn fits(full: bool, halted: u16, j: usize) -> bool
    ensures { result ≡ fits full halted j }
{
    !full | has(halted, j)
}

fn can_send(t: Tree, full: bool, halted: u16, i: usize, c: Column) -> bool
    ensures { result ≡ can_send t full halted i c }
{
    let set = c.send;
    if set == 0 {
        return false;
    }
    if !full {
        return true;
    }
    let k = choose(t, set);
    if k == i {
        return true;
    }
    has(c.noted, k) | fits(full, halted, k)
}

fn can_ack(t: Tree, full: bool, halted: u16, i: usize, c: Column) -> bool
    ensures { result ≡ can_ack t full halted i c }
{
    let set = c.owed;
    if set == 0 {
        return false;
    }
    may_acknowledge(t, i, c) & fits(full, halted, lowest(set))
}

fn can_take_over(t: Tree, i: usize, c: Column) -> bool
    ensures { result ≡ can_take_over t i c }
{
    (i != t.root) & (has(c.noted, watched(t, c)) & (!c.whole & ((c.send == 0) & (c.awaited == 0))))
}

// What column i, which is c, does: it notes the lowest column that is halted and not noted, sends, acknowledges, or takes over the bank. Where
// it can do nothing, the take of the oldest packet.
pub fn step_of(t: Tree, full: bool, halted: u16, i: usize, c: Column) -> Step
    ensures { result ≡ step_of t full halted i c (Take 0) }
{
    if !c.running {
        return Step::Take(0);
    }
    let noted = c.noted;
    let new = (halted | noted) ^ noted;
    if new != 0 {
        return Step::Note(i, lowest(new));
    }
    if can_send(t, full, halted, i, c) {
        return Step::Send(i);
    }
    if can_ack(t, full, halted, i, c) {
        return Step::Ack(i);
    }
    if can_take_over(t, i, c) {
        return Step::All(i);
    }
    Step::Take(0)
}

// Whether column i, which is c, can do anything.
fn is_ready(t: Tree, full: bool, halted: u16, i: usize, c: Column) -> bool
    ensures { result ≡ is_ready t full halted i c }
{
    !is_take(step_of(t, full, halted, i, c))
}

// The columns that can do anything, of a valid bank whose columns in `halted` are halted.
#[tactic(auto, unfolding(column::specs::Sets::selected))]
pub fn ready_columns(b: &Bank, halted: u16) -> u16
    requires { (b.now.tree.columns ≤ 16) × (halted ≡ halted_of b.now) }
    ensures { result ≡ ready_of b.now }
{
    let t = b.tree;
    let n = t.columns;
    let full = !(b.count < CAPACITY);
    let mut set: u16 = 0;
    for i in 0..n {
        let c = b.columns[i];
        if is_ready(t, full, halted, i, c) {
            set |= 1u16 << i;
        }
    }
    set
}

// The same after a step of column i, which is now c, that leaves the network full, or not full, as it was.
pub fn ready_after(ready: u16, t: Tree, full: bool, halted: u16, i: usize, c: Column) -> u16
    requires { i < 16 }
    ensures { result ≡ cond (is_ready t full halted i c) (insert ready i) (without ready i) }
{
    let own = 1u16 << i;
    if is_ready(t, full, halted, i, c) {
        return ready | own;
    }
    (ready | own) ^ own
}
