// Text as bytes: keys, numerals and lines read, and texts written into a lent buffer.
#![tactic(auto)]

pub mod reading;
pub mod search;
pub mod three_lines;
pub mod writing;
