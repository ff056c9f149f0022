// The closing list of a column: its text, and the list of a column alone.
#![tactic(auto)]

pub mod list;
