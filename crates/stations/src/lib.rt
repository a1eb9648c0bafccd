//! The stations of a script: their names, and what each has opened.
#![tactic(auto)]

mod name;
mod station;

pub use name::Name;
pub use station::{Ending, Station, Tables, find};
