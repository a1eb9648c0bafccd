//! Performs the calls of a script and prints their answers.
#![tactic(auto)]

pub mod command;
pub mod options;
pub mod session;
