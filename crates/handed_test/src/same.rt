// In which parts two states differ: a derived `==` compares all of both, these a part, and that by `==`.
use crate::state::State;
use bank::bank::{Bank, Words};

// The set of places, of all sixteen, at which the columns differ.
pub fn rewritten(a: &Bank, b: &Bank) -> u16 {
    (0..16usize)
        .filter(|i| a.columns[*i] != b.columns[*i])
        .fold(0, |set, i| set | 1 << i)
}

// From a place on: `first` is one of the network, and no length.
fn same_words(a: &Words, b: &Words, first: usize) -> bool {
    a.get(first..) == b.get(first..)
}

// The tree is the same, and so is every word of both arrays from `first` on.
pub fn same_from(a: &State, b: &State, first: usize) -> bool {
    a.bank.tree == b.bank.tree
        && same_words(&a.network.heads, &b.network.heads, first)
        && same_words(&a.network.doors, &b.network.doors, first)
}
