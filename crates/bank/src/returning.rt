// A halted column comes back to a bank at rest: the core says what becomes of each column, and the bank stores it. Who runs and who returns are handed on apart,
// as `survey` and the caller give them: a struct would be made for each call. So is the fact that there are sixteen columns at most, which a type would hide.
ghost use Rattle.std.specs.Prelude.{◌≡◌, ◌≤◌};
ghost use Rattle.column.specs.Refusals.{refusal_of, first};
ghost use Rattle.bank.specs.Banks.{running_of};
ghost use Rattle.bank.specs.Returns.{with_struck};
ghost use Rattle.bank.specs.inner.Returning.{returning_conditions, rejoining, ComesBack};

use crate::bank::{Bank, Words};
use crate::rest::columns_rest;
use crate::survey::{halted, survey};
use column::error::Refusal;
use column::members::{has, lowest};
use column::returning::{rejoin, strike};
use column::state::Column;
use column::tree::Tree;

// 4 of a column that the bank has not, 6 of one of those who run, 15 of the root, 14 where the bank is not at rest, 16 where nobody runs.
fn check_back(b: &Bank, running: u16, j: usize) -> Result<(), Refusal>
    requires { (b.now.tree.columns ≤ 16) × (running ≡ running_of b.now) }
    ensures { refusal_of result ≡ first (returning_conditions b.now running j) }
{
    let t = b.tree;
    if t.columns <= j {
        return Err(Refusal::OutOfBank);
    }
    if has(running, j) {
        return Err(Refusal::NotNow);
    }
    if j == t.root {
        return Err(Refusal::RootReturns);
    }
    if b.count != 0 {
        return Err(Refusal::NotAtRest);
    }
    if !columns_rest(b, running) {
        return Err(Refusal::NotAtRest);
    }
    if running == 0 {
        return Err(Refusal::NobodyRuns);
    }
    Ok(())
}

// Column j, which is `own`, as it comes back: with the record of `copied`, the lowest of those who run.
fn come_back(t: Tree, running: u16, own: Column, copied: Column, j: usize) -> Column
    requires { t.columns ≤ 16 }
    ensures { result ≡ rejoining t running own copied j }
{
    let sender = lowest(running);
    let others = halted(t.columns, running);
    strike(
        rejoin(own, copied, others, !has(running, t.root), sender),
        j,
    )
}

// Every column of the bank has j no longer noted.
fn strike_noted(mut b: Bank, j: usize) -> Bank
    requires { b.tree.columns ≤ 16 }
    ensures { result ≡ with_struck b j }
{
    let t = b.tree;
    let n = t.columns;
    for i in 0..n {
        let c = b.columns[i];
        b.columns[i] = strike(c, j);
    }
    b
}

// Column j comes back. It is struck first: that leaves every record and every page as it was.
pub fn bring_back(b: Bank, j: usize, heads: &Words) -> Result<Bank, Refusal>
    ensures { ComesBack result b heads.now j }
{
    let running = survey(&b, heads)?;
    check_back(&b, running, j)?;
    let mut d = strike_noted(b, j);
    let l = lowest(running);
    let own = d.columns[j];
    let copied = d.columns[l];
    d.columns[j] = come_back(d.tree, running, own, copied, j);
    Ok(d)
}
