//! The replay of a journal: files read back into tables.
#![tactic(auto)]

mod fault;
mod fetch;
mod filling;
mod replay;
mod survey;

pub use fault::ReplayFault;
pub use replay::{ReplayedMemtable, WalReplayIterator};
