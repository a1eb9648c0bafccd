//! The store that a script works on, and why a line of it is not performed.
#![tactic(auto)]

pub mod marks;
pub mod setup;
pub mod stop;
