//! The calls of a table, each by what the table means before and after it.
ghost use Rattle.rows.specs.Entries.{row_of};
ghost use Rattle.mem_table.specs.Meaning.{Meaning};
ghost use Rattle.mem_table.specs.Calls.{Put, Metadata, Room, Empty, Nth};

use super::{RowBuf, TableFault};
use rows::RowEntry;

/// A table of rows, each found by its key and number.
pub trait Table {
    ghost means: { Self → Meaning };

    /// Puts a row, over the one of the same key and number if there is one.
    fn put(&mut self, row: RowEntry<'_>) -> Result<(), TableFault>
        ensures { Put (means self.old) (means self.new) (row_of row.entry) result };

    /// How many rows there are, and the sum of their sizes.
    fn metadata(&self) -> (usize, usize)
        ensures { Metadata (means self.now) result };

    /// How many puts and bytes are left.
    fn room(&self) -> (usize, usize)
        ensures { Room (means self.now) result };

    /// Whether there is no row.
    fn is_empty(&self) -> bool
        ensures { Empty (means self.now) result };

    /// Fills in the row at a place of the order, or says that there is none.
    // kept: it fills a given row, so that no call of a table wants memory
    fn nth(&self, i: usize, row: &mut RowBuf) -> bool
        ensures { Nth (means self.now) i row.old row.new result };
}
