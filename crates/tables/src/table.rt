//! Tables whose rows are kept in their order as they come in.
ghost use Rattle.std.specs.Prelude.{◌≡◌, [], IfOk};
ghost use Rattle.std.specs.Bool.{OnTrue};
ghost use Rattle.rows.specs.Entries.{row_of};
ghost use Rattle.mem_table.specs.Calls.{Put};
ghost use Rattle.mem_table.specs.Meaning.{empty};
ghost use Rattle.tables.specs.Tables.{Logged, arrivals, table_means};

use super::shelf::Shelf;
use mem_table::{RowBuf, Table, TableFault};
use rows::RowEntry;
use std::alloc::{AllocError, Global};

/// A table of rows, which may be a log: then it keeps the rows that were replaced too.
#[derive(Drop)]
pub struct RowTable<const LOG: bool> {
    shelf: Shelf,
}

/// A table with one slot for each row that stands: a row that replaces another takes its slot.
pub type SortedTable = RowTable<false>;

/// A log with a slot for each row that came, in the order of arrival, and the numbers of those that stand, in the order of the rows.
pub type ArrivalLog = RowTable<true>;

impl<const LOG: bool> RowTable<LOG> {
    /// A table without rows, with room for that many puts and bytes, cut to the limits of a table.
    ///
    /// All memory is reserved here; no later call wants any.
    pub fn new(heap: Global, puts: usize, bytes: usize) -> Result<RowTable<LOG>, AllocError>
        ensures means { IfOk result (λ t. table_means t ≡ empty puts bytes) }
        ensures log { IfOk result (λ t. arrivals t ≡ []) }
    {
        let shelf = Shelf::new(heap, puts, bytes)?;
        Ok(RowTable { shelf })
    }
}

impl<const LOG: bool> Table for RowTable<LOG> {
    ghost means = { table_means };

    fn put(&mut self, row: RowEntry<'_>) -> Result<(), TableFault>
        ensures answers { Put (table_means self.old) (table_means self.new) (row_of row.entry) result }
        ensures log { OnTrue LOG (Logged self.old self.new (row_of row.entry) result) }
    {
        self.shelf.put(row, LOG)
    }

    fn metadata(&self) -> (usize, usize) {
        self.shelf.metadata()
    }

    fn room(&self) -> (usize, usize) {
        self.shelf.room()
    }

    fn is_empty(&self) -> bool {
        self.shelf.is_empty()
    }

    fn nth(&self, i: usize, row: &mut RowBuf) -> bool {
        self.shelf.nth(i, row)
    }
}
