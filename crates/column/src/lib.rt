// The core of one column of a locker bank, which can be had alone. By value, with no heap and no global state.
// Public functions of public modules ask nothing of their arguments: what the papers refuse is answered by its number, and nothing changes.
// Four parts are the bank's and no buyer's, since they leave tests to their caller: `unchecked_for_bank` those of rows 2 to 4, `effect` these and the step's own
// conditions, `fresh_under` of `state` those of the tree and of the column's number, `returning` all that a return is refused by.
#![tactic(auto)]

pub mod choice;
pub mod codec;
pub mod converter;
pub mod effect;
pub mod error;
pub mod frame;
pub mod members;
pub mod number_bytes;
pub mod outcome;
pub mod packet;
pub mod page;
pub mod refusal;
pub mod returning;
mod sets;
pub mod state;
pub mod step;
pub mod topology;
mod traversal;
pub mod tree;
pub mod unchecked_for_bank;
