// A request for a fastest tree as text, and the text that answers it.
#![tactic(auto)]

pub mod request;
