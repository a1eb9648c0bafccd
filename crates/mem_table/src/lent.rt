//! A table that is lent is a table.
use super::{RowBuf, Table, TableFault};
use rows::RowEntry;

// Kept as five calls that pass on: the language has no other way to say that a lent table is one.
impl<T: Table> Table for &mut T {
    ghost means = { λ t. T.Table.means t.now };

    fn put(&mut self, row: RowEntry<'_>) -> Result<(), TableFault> {
        (**self).put(row)
    }

    fn metadata(&self) -> (usize, usize) {
        (**self).metadata()
    }

    fn room(&self) -> (usize, usize) {
        (**self).room()
    }

    fn is_empty(&self) -> bool {
        (**self).is_empty()
    }

    fn nth(&self, i: usize, row: &mut RowBuf) -> bool {
        (**self).nth(i, row)
    }
}
