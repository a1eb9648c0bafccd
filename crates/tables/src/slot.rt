//! Where the digits of a row lie in a text.
use rows::Kind;

/// A row whose digits lie in a text from a start on: those of the key, then those of the value.
// Kept beside RowEntry, whose first fields it has too: a RowEntry borrows its digits, and the text of a table grows.
#[derive(Clone, Copy)]
pub(crate) struct Slot {
    pub seq: u64,
    pub kind: Kind,
    pub create_ts: Option<i64>,
    pub expire_ts: Option<i64>,
    pub start: usize,
    pub key_len: usize,
    pub value_len: usize,
}
