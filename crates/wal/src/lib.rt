//! The journal above its store: its faults, and the probe for the last file.
#![tactic(auto)]

mod fault;
mod laws;
mod tail;

pub use fault::WalFault;
pub use laws::{compare_calls, head_calls, tail_stands};
pub use tail::{LAST_ID, last_seen_wal_id};
