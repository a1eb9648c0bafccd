//! A line: the six fields of a row.
ghost use Rattle.rows.specs.Fields.{Line};
ghost use Rattle.rows.specs.Grammar.{ReadAs};
ghost use Rattle.rows.specs.Reading.{values_of};

use crate::decimal::read_decimal;
use crate::entry::RowEntry;
use crate::hex::read_hex;
use crate::kind::{most_digits, read_kind};
use crate::tick::read_tick;
use crate::types::ValueDeletable;

/// Reads a line from the front of a text.
///
/// Answers the row and the text behind the line, or the text from the damage on.
pub(crate) fn read_line(text: &[u8]) -> Result<(RowEntry<'_>, &[u8]), &[u8]>
    ensures { ReadAs values_of Line text.now result }
{
    let (seq, rest) = read_decimal(text, 0, u64::MAX)?;
    let (kind, rest) = read_kind(rest)?;
    let (create_ts, rest) = read_tick(rest)?;
    let (expire_ts, rest) = read_tick(rest)?;
    let (key, rest) = read_hex(rest, 128, b'\t')?;
    let (digits, rest) = read_hex(rest, most_digits(kind), b'\n')?;
    let row = RowEntry {
        seq,
        create_ts,
        expire_ts,
        key,
        value: ValueDeletable::new(kind, digits),
    };
    Ok((row, rest))
}
