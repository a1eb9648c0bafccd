//! Runs scripts: their calls are performed and answered one by one, and an account closes each.
#![tactic(auto)]

mod console;
mod failure;
mod program;

pub use console::{Console, run};
pub use failure::Failure;
pub use program::{rehearse, station};
