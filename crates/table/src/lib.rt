// The table of a bank as text.
#![tactic(auto)]

mod number_list;
pub mod table;
