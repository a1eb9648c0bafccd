//! The answers of calls and the account of a script, as they are printed.
#![tactic(auto)]

pub mod account;
pub mod answer;
