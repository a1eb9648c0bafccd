//! Tables of rows in memory that is reserved when they are made: a sorted table and an arrival log.
#![tactic(auto)]

mod arena;
mod shelf;
mod slot;
mod table;

pub use shelf::{MOST_BYTES, MOST_PUTS};
pub use table::{ArrivalLog, RowTable, SortedTable};
