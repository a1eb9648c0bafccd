//! A table written out as a text of rows.
ghost use Rattle.std.specs.Prelude.{◌≡◌, ℕ, List, ◌++◌, is_ok, if◌then◌else◌};
ghost use Rattle.std.specs.List.{flat_map};
ghost use Rattle.rows.specs.Lines.{line};
ghost use Rattle.loader.specs.Loads.{Lists};

use mem_table::{RowBuf, Table};
use row_text::write_row;
use std::alloc::AllocError;

/// Appends the lines of a table's rows, as far as there is memory.
fn append_rows<T: Table>(table: &T, out: &mut Vec<u8>) -> Result<(), AllocError>
    ensures { Lists (T.Table.means table.now).order out.old.items out.new.items result }
{
    let mut row = RowBuf::new();
    let (count, _) = table.metadata();
    for i in 0..count {
        // There is a row at each place below the count.
        let _ = table.nth(i, &mut row);
        write_row(row.lend(), out)?;
    }
    Ok(())
}

/// Appends the lines of a table's rows, in their order. For want of memory nothing is appended.
pub fn list<T: Table>(table: &T, out: &mut Vec<u8>) -> Result<(), AllocError>
    ensures { out.new.items ≡ (if is_ok result then out.old.items ++ flat_map line (T.Table.means table.now).order else out.old.items) }
{
    let len = out.len();
    let done = append_rows(table, out);
    if done.is_err() {
        out.truncate(len);
    }
    done
}
