//! Performs the calls of a script and prints their answers.
#![tactic(auto)]

pub mod session;
