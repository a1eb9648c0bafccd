//! The digits of rows, one row behind another in a text.
// Kept as functions over the shelf's text: what holds of the text holds of the slots with it, so a type of its own would repeat that.
ghost use Rattle.std.specs.Prelude.{◌≡◌, ◌+◌, ◌*◌, ◌≤◌, ◌++◌, length, vec_len, vec_capacity};
ghost use Rattle.rows.specs.Entries.{row_of};
ghost use Rattle.rows.specs.Sizes.{weight as weight_of};
ghost use Rattle.tables.specs.Slots.{Digits, Lies, row_at};

use super::slot::Slot;
use rows::{RowEntry, ValueDeletable};

/// Adds the digits of a row to a text, and says where they lie.
pub(crate) fn store(text: &mut Vec<u8>, row: RowEntry<'_>) -> Slot
    requires { vec_len text.old + 2 * weight_of (row_of row) ≤ vec_capacity text.old }
    ensures items { text.new.items ≡ text.old.items ++ ((row_of row.entry).key ++ (row_of row.entry).value) }
    ensures capacity { vec_capacity text.old ≤ vec_capacity text.new }
    ensures lies { Lies (length text.new.items) result }
    ensures row { row_at text.new.items result ≡ row_of row.entry }
{
    let start = text.len();
    let digits = row.value.digits();
    let _ = text.extend_from_slice(row.key);
    let _ = text.extend_from_slice(digits);
    Slot {
        seq: row.seq,
        kind: row.value.kind(),
        create_ts: row.create_ts,
        expire_ts: row.expire_ts,
        start,
        key_len: row.key.len(),
        value_len: digits.len(),
    }
}

/// The row whose digits lie at a slot.
pub(crate) fn read(text: &[u8], slot: Slot) -> RowEntry<'_>
    requires digits { Digits text.now }
    requires lies { Lies (length text.now) slot }
    ensures { row_of result ≡ row_at text.now slot }
{
    let start = slot.start;
    let middle = start + slot.key_len;
    let end = middle + slot.value_len;
    RowEntry {
        seq: slot.seq,
        create_ts: slot.create_ts,
        expire_ts: slot.expire_ts,
        key: &text[start..middle],
        value: ValueDeletable::new(slot.kind, &text[middle..end]),
    }
}
