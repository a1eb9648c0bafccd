//! Rows of the journal: their lines read, and their sizes.
#![tactic(auto)]

mod block;
mod decimal;
mod entry;
mod hex;
mod kind;
mod line;
mod reader;
mod sizes;
mod tick;
mod totals;
mod types;

pub use block::{BadBlockSize, BlockSize};
pub use entry::RowEntry;
pub use reader::Reader;
pub use sizes::{estimate_encoded_size_compacted, estimate_encoded_size_wal};
pub use totals::Totals;
pub use types::{Damage, Kind, UnknownKind, ValueDeletable};
