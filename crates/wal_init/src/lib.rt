//! The opening of a journal: its fence, and the window of the files that are read next.
#![tactic(auto)]

mod arguments;
mod fence;
mod grant;
mod laws;
mod opening;
mod record;
mod slot;
mod wal_id;
mod window;
mod writer_init;

pub use grant::Grant;
pub use laws::opening_stands;
pub use opening::Opening;
pub use record::{ManifestRecord, Options};
pub use window::Front;
pub use writer_init::fence_and_init;
