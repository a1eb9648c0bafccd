//! Rows in memory that is reserved when the shelf is made, and the order of those that stand.
ghost use Rattle.std.specs.Prelude.{◌+◌, ◌*◌, ◌≤◌, vec_len, vec_capacity};
ghost use Rattle.tables.specs.Slots.{Kept};

use super::slot::Slot;

mod answers;
mod edits;
mod search;

pub use answers::{MOST_BYTES, MOST_PUTS};

/// Rows by slots into one text of digits. `ranks` has the numbers of the slots whose rows stand, in the order of the rows.
// Kept as an arena of three lists: a call of a table wants no memory, so all of it is reserved when the table is made.
// Kept without a Model: what a table means has a function among its parts, and the value of a Model cannot hold one.
#[derive(Drop)]
pub(crate) struct Shelf {
    text: Vec<u8>,
    slots: Vec<Slot>,
    ranks: Vec<u16>,
    puts: usize,
    bytes: usize,
    size: usize,
    ghost spare: { vec_len text + 2 * bytes ≤ vec_capacity text },
    ghost slots_spare: { vec_len slots + puts ≤ vec_capacity slots },
    ghost ranks_spare: { vec_len ranks + puts ≤ vec_capacity ranks },
    ghost kept: { Kept text.items slots.items ranks.items puts bytes size },
}
