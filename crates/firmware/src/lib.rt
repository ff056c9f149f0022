// The core of one column for firmware in C: functions over numbers and blocks of bytes alone. `crates/firmware_c` has them for C, and `include/mudasgup.h` by types.
// A refused call leaves every byte that was lent to it.
#![tactic(auto)]

pub mod answer;
mod block;
pub mod frames;
pub mod journal;
mod lone;
mod packet_block;
pub mod packets;
pub mod state;
pub mod steps;
