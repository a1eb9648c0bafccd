//! What the lines of a script ask for.
#![tactic(auto)]

pub mod arguments;
pub mod command;
pub mod options;
pub mod verb;
