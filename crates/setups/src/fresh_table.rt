//! A table of either kind.
ghost use Rattle.setups.specs.Tables.{table_means};

use mem_table::{RowBuf, Table, TableFault};
use rows::RowEntry;
use tables::{ArrivalLog, SortedTable};

/// A table of the kind that a script's settings name.
#[derive(Drop)]
pub enum AnyTable {
    Sorted(SortedTable),
    Log(ArrivalLog),
}

impl Table for AnyTable {
    ghost means = { table_means };

    fn put(&mut self, row: RowEntry<'_>) -> Result<(), TableFault> {
        match self {
            AnyTable::Sorted(table) => table.put(row),
            AnyTable::Log(table) => table.put(row),
        }
    }

    fn metadata(&self) -> (usize, usize) {
        match self {
            AnyTable::Sorted(table) => table.metadata(),
            AnyTable::Log(table) => table.metadata(),
        }
    }

    fn room(&self) -> (usize, usize) {
        match self {
            AnyTable::Sorted(table) => table.room(),
            AnyTable::Log(table) => table.room(),
        }
    }

    fn is_empty(&self) -> bool {
        match self {
            AnyTable::Sorted(table) => table.is_empty(),
            AnyTable::Log(table) => table.is_empty(),
        }
    }

    fn nth(&self, i: usize, row: &mut RowBuf) -> bool {
        match self {
            AnyTable::Sorted(table) => table.nth(i, row),
            AnyTable::Log(table) => table.nth(i, row),
        }
    }
}
