//! What a row says of its key, and where a text is damaged.

/// What a row writes. Value and Merge borrow the hexadecimal digits of the line's value field.
#[derive(Clone, Copy)]
pub enum ValueDeletable<'a> {
    /// A stored value.
    Value(&'a [u8]),
    /// A merge operand.
    Merge(&'a [u8]),
    /// The key is deleted; there are no digits.
    Tombstone,
}

/// The kind of a row, one letter of its line.
#[derive(Clone, Copy, Debug, PartialEq, Eq)]
pub enum Kind {
    Value,
    Merge,
    Tombstone,
}

/// A letter that stands for no kind.
#[derive(Clone, Copy, Debug, PartialEq, Eq)]
pub struct UnknownKind(pub u8);

/// Where a text stops being one that rows write.
#[derive(Clone, Copy, Debug, PartialEq, Eq)]
pub struct Damage {
    /// One more than the line ends before the place.
    pub line: usize,
    /// The length of the longest beginning that some well-formed text shares.
    pub place: usize,
}
