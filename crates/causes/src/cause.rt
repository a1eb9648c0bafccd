//! The causes for which a call is refused.
ghost use Rattle.std.specs.Prelude.{◌≡◌};
ghost use Rattle.causes.specs.Causes.{name as named, number as numbered};

/// A cause, by its name and its number.
#[derive(Clone, Copy, PartialEq, Eq, Debug)]
pub enum Cause {
    Exists = 1,
    Missing = 2,
    NoRoom = 3,
    TooLong = 4,
    Short = 5,
    Unavailable = 6,
    Fenced = 7,
    WalTruncated = 8,
    Closed = 9,
    DataError = 10,
    InternalError = 11,
    InvalidSSTBatchSize = 12,
    InvalidDBState = 13,
    IdsSpent = 14,
    Attempts = 15,
    OutOfOrder = 16,
    WriterFull = 17,
    Busy = 18,
    TicketsSpent = 19,
    NotMine = 20,
    TableInUse = 21,
    TableFull = 22,
    NotReplayed = 23,
    BlockSize = 24,
}

impl Cause {
    /// The number of the cause.
    pub fn number(self) -> u8
        ensures { result ≡ numbered self }
    {
        self as u8
    }

    /// The name of the cause.
    pub fn name(self) -> &'static str
        ensures { result.now ≡ named self }
    {
        match self {
            Cause::Exists => "Exists",
            Cause::Missing => "Missing",
            Cause::NoRoom => "NoRoom",
            Cause::TooLong => "TooLong",
            Cause::Short => "Short",
            Cause::Unavailable => "Unavailable",
            Cause::Fenced => "Fenced",
            Cause::WalTruncated => "WalTruncated",
            Cause::Closed => "Closed",
            Cause::DataError => "DataError",
            Cause::InternalError => "InternalError",
            Cause::InvalidSSTBatchSize => "InvalidSSTBatchSize",
            Cause::InvalidDBState => "InvalidDBState",
            Cause::IdsSpent => "IdsSpent",
            Cause::Attempts => "Attempts",
            Cause::OutOfOrder => "OutOfOrder",
            Cause::WriterFull => "WriterFull",
            Cause::Busy => "Busy",
            Cause::TicketsSpent => "TicketsSpent",
            Cause::NotMine => "NotMine",
            Cause::TableInUse => "TableInUse",
            Cause::TableFull => "TableFull",
            Cause::NotReplayed => "NotReplayed",
            Cause::BlockSize => "BlockSize",
        }
    }
}
