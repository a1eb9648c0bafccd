//! Making a shelf, and what it answers.
ghost use Rattle.std.specs.Prelude.{◌≡◌, [], IfOk};
ghost use Rattle.mem_table.specs.Calls.{Empty, Metadata, Nth, Room};
ghost use Rattle.mem_table.specs.Meaning.{empty};
ghost use Rattle.tables.specs.Shelves.{rows_of, shelf_means};

use super::Shelf;
use mem_table::RowBuf;
use std::alloc::{AllocError, Global};

/// The most rows that a table holds.
pub const MOST_PUTS: usize = 65_536;

/// The most bytes that the rows of a table have.
pub const MOST_BYTES: usize = 16_777_216;

impl Shelf {
    /// A shelf without rows, with room for that many puts and bytes, cut to the limits of a table.
    pub fn new(heap: Global, puts: usize, bytes: usize) -> Result<Shelf, AllocError>
        ensures means { IfOk result (λ s. shelf_means s ≡ empty puts bytes) }
        ensures rows { IfOk result (λ s. rows_of s ≡ []) }
    {
        let puts = puts.min(MOST_PUTS);
        let bytes = bytes.min(MOST_BYTES);
        let text = Vec::with_capacity(heap, 2 * bytes)?;
        let slots = Vec::with_capacity(heap, puts)?;
        let ranks = Vec::with_capacity(heap, puts)?;
        Ok(Shelf {
            text,
            slots,
            ranks,
            puts,
            bytes,
            size: 0,
        })
    }

    /// How many rows there are, and the sum of their sizes.
    pub fn metadata(&self) -> (usize, usize)
        ensures { Metadata (shelf_means self.now) result }
    {
        (self.ranks.len(), self.size)
    }

    /// How many puts and bytes are left.
    pub fn room(&self) -> (usize, usize)
        ensures { Room (shelf_means self.now) result }
    {
        (self.puts, self.bytes)
    }

    /// Whether there is no row.
    pub fn is_empty(&self) -> bool
        ensures { Empty (shelf_means self.now) result }
    {
        self.ranks.is_empty()
    }

    /// Fills in the row at a place of the order, or says that there is none.
    pub fn nth(&self, i: usize, row: &mut RowBuf) -> bool
        ensures { Nth (shelf_means self.now) i row.old row.new result }
    {
        if i >= self.ranks.len() {
            return false;
        }
        row.fill(self.row_at(i));
        true
    }
}
