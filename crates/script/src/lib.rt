// The closing list of a column of a bank, and a script that runs a bank.
#![tactic(auto)]

mod answer;
pub mod bank_list;
mod hexadecimal;
pub mod line;
mod one_line;
pub mod script;
