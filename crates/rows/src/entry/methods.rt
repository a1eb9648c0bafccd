//! The size of a row.
ghost use Rattle.std.specs.Prelude.{◌≡◌, ◌+◌, ◌≤◌, length, Some, None};
ghost use Rattle.rows.specs.Entries.{row_of};
ghost use Rattle.rows.specs.Rows.{digits_for, digits_of, kind_of, room};
ghost use Rattle.rows.specs.Sizes.{size, tick_size, weight};

use super::RowEntry;
use crate::types::{Kind, ValueDeletable};

impl<'a> ValueDeletable<'a> {
    /// The value of a kind with these digits; a tombstone has none.
    pub fn new(kind: Kind, digits: &'a [u8]) -> ValueDeletable<'a>
        ensures kind { kind_of result ≡ kind }
        ensures digits { digits_of result ≡ digits_for kind digits.now }
        ensures whole { length digits.now ≤ room kind → digits_of result ≡ digits.now }
    {
        match kind {
            Kind::Value => ValueDeletable::Value(digits),
            Kind::Merge => ValueDeletable::Merge(digits),
            Kind::Tombstone => ValueDeletable::Tombstone,
        }
    }

    /// The kind of a value.
    pub fn kind(&self) -> Kind
        ensures { result ≡ kind_of self.now }
    {
        match self {
            ValueDeletable::Value(_) => Kind::Value,
            ValueDeletable::Merge(_) => Kind::Merge,
            ValueDeletable::Tombstone => Kind::Tombstone,
        }
    }

    /// The hexadecimal digits of the value; a tombstone has none.
    pub fn digits(&self) -> &'a [u8]
        ensures { result.now ≡ digits_of self.now }
    {
        match *self {
            ValueDeletable::Value(digits) | ValueDeletable::Merge(digits) => digits,
            ValueDeletable::Tombstone => &[],
        }
    }
}

/// The bytes that a tick counts.
fn tick_size(tick: Option<i64>) -> usize
    ensures { result ≡ tick_size tick }
{
    if tick.is_some() { 8 } else { 0 }
}

impl<'a> RowEntry<'a> {
    /// The bytes of key and value.
    pub fn weight(&self) -> usize
        ensures { result ≡ weight (row_of self.now) }
    {
        self.key.len() / 2 + self.value.digits().len() / 2
    }

    /// Key, value and number in bytes, and 8 for each tick that is there.
    pub fn estimated_size(&self) -> usize
        ensures { result ≡ size (row_of self.now) }
    {
        self.weight() + 8 + tick_size(self.create_ts) + tick_size(self.expire_ts)
    }
}
