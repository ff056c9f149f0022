// What `crates/firmware` has for C: each call answers a number, what was found or 1000 and the number of a refusal. `include/mudasgup.h` has them by types.
#![tactic(auto)]

pub mod frames;
pub mod journal;
pub mod packets;
pub mod state;
pub mod steps;
