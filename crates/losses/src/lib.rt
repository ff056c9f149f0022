// How many halts lose an order: every set of columns halted at one moment of its broadcast.
#![tactic(auto)]

pub mod count;
