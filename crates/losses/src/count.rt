// An order is given to a fresh bank and dispatched for some steps. Then every set of columns is halted in turn, each in the same bank, which is
// dispatched to rest: by what its running columns hold there the sets are counted.
ghost use Rattle.std.specs.Prelude.{◌≤◌, ◌<◌, ◌≡◌};
ghost use Rattle.column.specs.Refusals.{refusal_of, meant};
ghost use Rattle.bank.specs.Banks.{state};
ghost use Rattle.bank.specs.Steps.{after};
ghost use Rattle.bank.specs.Dispatch.{dispatch_outcome};
ghost use Rattle.losses.specs.Losses.{nobody_runs, all_hold, losses_refusal, ended, counted_of, losses_given};
ghost use Rattle.losses.specs.inner.Counting.{with_ended};

use bank::bank::{Bank, Network, fresh};
use bank::dispatch::dispatch;
use bank::step::{halt, order};
use column::error::Refusal;
use column::packet::CAPACITY;
use column::topology::check_tree;
use column::tree::Tree;

// The most columns whose sets are tried.
pub const MOST_COLUMNS: usize = 8;

// Steps in which a bank of so many columns rests, 9N² − 5N of document 02.
pub const TO_REST: usize = 536;

// How many sets end with record 1, with record 0 and with no column running.
#[derive(Clone, Copy, Debug, PartialEq, Eq)]
pub struct Losses {
    pub kept: usize,
    pub lost: usize,
    pub none: usize,
}

// 2, 3 for the tree, 23 for more columns or where senders are watched.
#[tactic(auto, unfolding(crate::specs::Losses::losses_refusal))]
pub fn check_losses(t: Tree) -> Result<(), Refusal>
    ensures { refusal_of result ≡ losses_refusal t }
{
    check_tree(t)?;
    if MOST_COLUMNS < t.columns || t.watch {
        return Err(Refusal::NotCountable);
    }
    Ok(())
}

// A bank of at most eight columns is made here alone: a type for it would be made once, and taken apart in each of three helpers. `all_hold` asks something else
// of each column, by the same method.
fn nobody_runs(b: Bank) -> bool
    requires { b.tree.columns ≤ 16 }
    ensures { result ≡ nobody_runs b }
{
    b.columns[..b.tree.columns].iter().all(|c| !c.running)
}

// Every column that runs has this number.
fn all_hold(b: Bank, number: u32) -> bool
    requires { b.tree.columns ≤ 16 }
    ensures { result ≡ all_hold number b }
{
    b.columns[..b.tree.columns]
        .iter()
        .all(|c| !c.running || c.number == number)
}

// The counts with one set more, whose halt ended in bank b.
fn with_ended(l: Losses, b: Bank) -> Losses
    requires { (b.tree.columns ≤ 16) × ((l.kept < 256) × ((l.lost < 256) × (l.none < 256))) }
    ensures { result ≡ with_ended l b }
{
    let none = nobody_runs(b);
    Losses {
        kept: l.kept + usize::from(!none && all_hold(b, 1)),
        lost: l.lost + usize::from(!none && all_hold(b, 0)),
        none: l.none + usize::from(none),
    }
}

// The bank after at most so many steps of the dispatcher; as it was, where that is refused.
fn dispatched(b: Bank, steps: usize, network: &mut Network) -> Bank
    ensures { state result network.new.heads network.new.doors ≡ after (dispatch_outcome steps (state b network.old.heads network.old.doors)) }
{
    match dispatch(b, steps, network) {
        Ok(done) => done.bank,
        Err(_) => b,
    }
}

// The bank with a set halted, at rest. The network is copied: each set is halted in the same bank.
fn ended(b: Bank, set: u32, network: &Network) -> Bank
    ensures { result ≡ (ended (state b network.now.heads network.now.doors) set).bank }
{
    let mut network = *network;
    let halted = halt(b, set, &mut network).unwrap_or(b);
    dispatched(halted, TO_REST, &mut network)
}

// The counts over every set, the empty one too.
#[tactic(auto, unfolding(crate::specs::Losses::counted))]
fn count(b: Bank, network: &Network) -> Losses
    requires { b.tree.columns ≤ 8 }
    ensures { result ≡ counted_of (state b network.now.heads network.now.doors) }
{
    let mut l = Losses {
        kept: 0,
        lost: 0,
        none: 0,
    };
    for set in 0..1u32 << b.tree.columns {
        l = with_ended(l, ended(b, set, network));
    }
    l
}

// How many sets keep the order, lose it, and leave nobody running, where they halt after so many steps; or 2, 3, 23.
pub fn count_losses(t: Tree, steps: usize) -> Result<Losses, Refusal>
    ensures { meant result ≡ losses_given t steps }
{
    check_losses(t)?;
    // Written out: of the constant the compiler would make a copy more on the stack.
    let mut network = Network {
        heads: [0; CAPACITY],
        doors: [0; CAPACITY],
    };
    let first = fresh(t)?;
    let ordered = order(first, 0, &mut network).unwrap_or(first);
    let begun = dispatched(ordered, steps, &mut network);
    Ok(count(begun, &network))
}
