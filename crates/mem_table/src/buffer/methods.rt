//! Filling a row in, and lending it.
ghost use Rattle.std.specs.Prelude.{◌≡◌};
ghost use Rattle.rows.specs.Entries.{row_of};
ghost use Rattle.mem_table.specs.Order.{no_row};

use super::RowBuf;
use crate::digits::Digits;
use rows::{Kind, RowEntry, ValueDeletable};

impl RowBuf {
    /// A value without digits or ticks, under the number 0 and the empty key.
    // Kept as the one name for it: a kind has no default, so a derived Default cannot be had.
    pub fn new() -> RowBuf
        ensures { result ≡ no_row }
    {
        RowBuf {
            seq: 0,
            kind: Kind::Value,
            create_ts: None,
            expire_ts: None,
            key: Digits::new(),
            value: Digits::new(),
        }
    }

    /// The row that is held.
    pub fn lend(&self) -> RowEntry<'_>
        ensures { row_of result ≡ self.now }
    {
        RowEntry {
            seq: self.seq,
            create_ts: self.create_ts,
            expire_ts: self.expire_ts,
            key: self.key.as_slice(),
            value: ValueDeletable::new(self.kind, self.value.as_slice()),
        }
    }

    /// Takes a row over, in place of the one that was held.
    pub fn fill(&mut self, row: RowEntry<'_>)
        ensures { self.new ≡ row_of row.entry }
    {
        self.seq = row.seq;
        self.kind = row.value.kind();
        self.create_ts = row.create_ts;
        self.expire_ts = row.expire_ts;
        self.key.set(row.key);
        self.value.set(row.value.digits());
    }
}
