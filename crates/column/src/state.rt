// What a column holds, and the test of a handed-in state.
ghost use Rattle.std.specs.Prelude.{◌≡◌};
ghost use Rattle.column.specs.Refusals.{refusal_of, meant};
ghost use Rattle.column.specs.Columns.{fresh_under, fresh_given, state_refusal, validity_refusal};

use crate::error::Refusal;
use crate::members::{has, within};
use crate::packet::Number;
use crate::topology::{check_column, check_tree};
use crate::tree::Tree;

// Widest fields first, so that a column is 32 bytes.
#[derive(Clone, Copy, PartialEq, Eq)]
pub struct Column {
    pub doors: u64,
    // Who sent its record.
    pub sender: usize,
    pub number: Number,
    // The four sets side by side, since the bank reads those of a column as one number.
    pub send: u16,
    pub awaited: u16,
    pub owed: u16,
    pub noted: u16,
    pub running: bool,
    // The goal: the whole bank, or its own subtree.
    pub whole: bool,
    // Bytes 5 and 6 of its page: the interrupt mask, and what is pending.
    pub mask: u8,
    pub pending: u8,
}

// Column i as it begins in a bank with that root, for a caller that has tested the tree. Each field has its own value, as the definition lists them.
pub fn fresh_under(root: usize, i: usize) -> Column
    ensures { result ≡ fresh_under root i }
{
    Column {
        running: true,
        number: 0,
        doors: 0,
        send: 0,
        awaited: 0,
        owed: 0,
        noted: 0,
        whole: i == root,
        sender: root,
        mask: 0,
        pending: 0,
    }
}

// Column i as it begins; or 2, 3, 4. A test and an answer, as others are in `topology`.
pub fn fresh(t: Tree, i: usize) -> Result<Column, Refusal>
    ensures { meant result ≡ fresh_given t i }
{
    check_column(t, i)?;
    Ok(fresh_under(t.root, i))
}

// 4 where row 4 refuses the state of column i. The tree is not tested.
pub fn check_state(t: Tree, i: usize, c: Column) -> Result<(), Refusal>
    ensures { refusal_of result ≡ state_refusal t i c }
{
    let members = c.send | c.awaited | c.owed | c.noted;
    let n = t.columns;
    let root = t.root;
    let sender = c.sender;
    if n <= i {
        return Err(Refusal::OutOfBank);
    }
    if !within(members, n) {
        return Err(Refusal::OutOfBank);
    }
    if has(c.owed, i) {
        return Err(Refusal::OutOfBank);
    }
    if (i == root) & !c.whole {
        return Err(Refusal::OutOfBank);
    }
    if n <= sender {
        return Err(Refusal::OutOfBank);
    }
    Ok(())
}

// What every step tests first: 2 or 3 of the tree, then 4 of the state.
pub fn check_validity(t: Tree, i: usize, c: Column) -> Result<(), Refusal>
    ensures { refusal_of result ≡ validity_refusal t i c }
{
    check_tree(t)?;
    check_state(t, i, c)
}
