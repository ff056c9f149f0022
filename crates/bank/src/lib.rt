// The bank: up to sixteen columns, each the core of its own, and the packets between them. One part is the script's and no buyer's, since it believes its caller what
// that has tested: `unchecked_for_script`.
#![tactic(auto)]

pub mod bank;
pub mod dispatch;
pub mod kind;
mod network;
mod opening;
pub mod page;
pub mod rest;
mod returning;
mod settling;
pub mod step;
mod strip;
mod survey;
mod turn;
pub mod unchecked_for_script;
pub mod validity;
mod words;
