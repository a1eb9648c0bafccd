//! A row, valid by construction.
ghost use Rattle.std.specs.Prelude.{◌≡◌, ◌^◌, ◌<◌, true};
ghost use Rattle.rows.specs.Rows.{Hex, digits_of, fits, kind_of, room};

use crate::types::ValueDeletable;

mod methods;

/// A row of a text. Its key and value are the hexadecimal digits of the line's fields.
///
/// A row whose number, ticks, key or value no line can hold cannot be made.
#[derive(Clone, Copy)]
pub struct RowEntry<'a> {
    pub seq: u64,
    pub create_ts: Option<i64>,
    pub expire_ts: Option<i64>,
    pub key: &'a [u8],
    pub value: ValueDeletable<'a>,
    ghost number: { seq < 2 ^ 64 },
    ghost created: { fits create_ts ≡ true },
    ghost expires: { fits expire_ts ≡ true },
    ghost key_digits: { Hex 128 key.now },
    ghost value_digits: { Hex (room (kind_of value)) (digits_of value) },
}
