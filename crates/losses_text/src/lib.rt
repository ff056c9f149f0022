// A table with a step count as text, and the text that answers it.
#![tactic(auto)]

pub mod request;
