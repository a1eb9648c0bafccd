//! Writing lines.
ghost use Rattle.std.specs.Prelude.{◌≡◌, [], ◌∷◌, ◌++◌, is_ok, if◌then◌else◌};
ghost use Rattle.rows.specs.Entries.{row_of};
ghost use Rattle.rows.specs.Lines.{line, tick};
ghost use Rattle.row_text.specs.Writing.{Appended};

use itoa::Buffer;
use rows::RowEntry;
use std::alloc::AllocError;

/// Appends a tick, a lone minus where there is none, and a tab.
fn append_tick(ts: Option<i64>, out: &mut Vec<u8>) -> Result<(), AllocError>
    ensures { Appended (tick ts ++ (9 ∷ [])) out.old.items out.new.items result }
{
    let Some(z) = ts else {
        return out.extend_from_slice(b"-\t");
    };
    out.extend_from_slice(Buffer::new().format(z).as_bytes())?;
    out.extend_from_slice(b"\t")
}

/// Appends the line of a row, as far as there is memory.
fn append_line(row: RowEntry<'_>, out: &mut Vec<u8>) -> Result<(), AllocError>
    ensures { Appended (line (row_of row.entry)) out.old.items out.new.items result }
{
    let (key, digits) = (row.key, row.value.digits());
    out.extend_from_slice(Buffer::new().format(row.seq).as_bytes())?;
    out.extend_from_slice(&[b'\t', row.value.kind().into(), b'\t'])?;
    append_tick(row.create_ts, out)?;
    append_tick(row.expire_ts, out)?;
    out.extend_from_slice(key)?;
    out.extend_from_slice(b"\t")?;
    out.extend_from_slice(digits)?;
    out.extend_from_slice(b"\n")?;
    Ok(())
}

/// Appends the line of a row. For want of memory nothing is appended.
pub fn write_row(row: RowEntry<'_>, out: &mut Vec<u8>) -> Result<(), AllocError>
    ensures { out.new.items ≡ (if is_ok result then out.old.items ++ line (row_of row.entry) else out.old.items) }
{
    let len = out.len();
    let done = append_line(row, out);
    if done.is_err() {
        out.truncate(len);
    }
    done
}
