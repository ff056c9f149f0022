// The journals of two columns compared.
#![tactic(auto)]

pub mod comparison;
mod index;
mod indexed;
mod journal;
pub mod line;
mod lines;
mod word;
