//! A whole text: its rows counted and sized.
ghost use Rattle.std.specs.Prelude.{Some};
ghost use Rattle.row_text.specs.Checks.{Checks, Totalled, shown};

use crate::fault::CheckFault;
use rows::{
    BlockSize, Damage, Reader, Totals, estimate_encoded_size_compacted, estimate_encoded_size_wal,
};
use std::fmt;

/// A text's rows, their sizes in all, and both estimates of a table that holds them.
#[derive(Clone, Copy)]
pub struct Checked {
    pub rows: u64,
    pub size: u128,
    pub wal: u128,
    pub compacted: u128,
}

impl fmt::Display for Checked {
    ghost output = { λ k. Some (shown k) };

    fn fmt<W: fmt::Write>(&self, f: &mut fmt::Formatter<W>) -> fmt::Result {
        write!(
            f,
            "rows {} size {} wal {} compacted {}",
            self.rows, self.size, self.wal, self.compacted,
        )
    }
}

/// Reads a whole text.
pub fn read_text(text: &[u8]) -> Result<Totals, Damage>
    ensures { Totalled text.now result }
{
    let mut reader = Reader::new(text);
    let mut rows = 0u64;
    let mut size = 0u128;
    // kept: each row may be an error that ends the call, so the sums are no fold
    while let Some(row) = reader.next_row()? {
        rows += 1;
        size += row.estimated_size() as u128;
    }
    Ok(Totals { rows, size })
}

/// Reads a whole text and estimates its tables at a block size. Damage is reported first.
pub fn check(text: &[u8], block_size: u64) -> Result<Checked, CheckFault>
    ensures { Checks text.now block_size result }
{
    let totals = read_text(text)?;
    let block = BlockSize::new(block_size)?;
    let wal = estimate_encoded_size_wal(totals, block);
    let compacted = estimate_encoded_size_compacted(totals, block);
    Ok(Checked {
        rows: totals.rows,
        size: totals.size,
        wal,
        compacted,
    })
}
