// Fastest trees: the tree that the strategy of the report's section 4 makes. That no tree completes earlier is proved in specs/laws.
#![tactic(auto)]

mod growth;
pub mod request;
pub mod strategy;
