//! What both consoles print in one way: texts of files, and how many calls were made.
#![tactic(auto)]

pub mod page;
pub mod tally;
