//! The causes for which the journal refuses a call.

ghost use Rattle.std.specs.Prelude.{◌≡◌};
ghost use Rattle.causes.specs.Causes.{says};
ghost use Rattle.wal.specs.Said.{fault};
ghost use Rattle.wal.specs.declared.fault.WalFault.TheVariants.{Store};

use causes::{Cause, Refusal, Values};
use store::StoreFault;

/// Why the journal refused a call, with the values that the cause returns.
#[derive(Clone, Copy, PartialEq, Eq, Debug)]
pub enum WalFault {
    /// 1 to 6: the store refused, and this is its whole fault.
    Store(StoreFault),
    /// 7: another writer has a file at this id.
    Fenced(u64),
    /// 8: the file of this id is missing.
    WalTruncated(u64),
    /// 9: the writer was closed.
    Closed,
    /// 10: the text of a file, or of a batch, which counts as file 0, is not well formed.
    DataError {
        file: u64,
        line: usize,
        place: usize,
    },
    /// 11: the least number of this file is not above the greatest before it.
    InternalError {
        id: u64,
        least: u64,
        greatest: u64,
    },
    /// 12: the window is 0 or above 16.
    InvalidSSTBatchSize(u64),
    /// 13: every probe behind this start found a file.
    InvalidDBState(u64),
    /// 14: this id is above 2^62.
    IdsSpent(u64),
    /// 15: every fence put met a file, the last one at this id.
    Attempts(u64),
    /// 16: this line of a batch has a number out of order.
    OutOfOrder(usize),
    /// 17: the batch is so many bytes more than the current file takes.
    WriterFull(usize),
    /// 18: so many tickets are unclaimed and so many requests wait.
    Busy {
        tickets: usize,
        requests: usize,
    },
    /// 19: all 65,535 tickets were issued.
    TicketsSpent,
    /// 23: the writer with this fence was started before its replay ended.
    NotReplayed(u64),
    /// 24: this block size is 0 or above 65,536.
    BlockSize(u64),
}

impl From<StoreFault> for WalFault {
    ghost from_gives = { λ e r. r ≡ Store e };

    fn from(fault: StoreFault) -> WalFault {
        WalFault::Store(fault)
    }
}

impl From<WalFault> for Refusal {
    ghost from_gives = { λ e r. says r ≡ fault e };

    fn from(fault: WalFault) -> Refusal {
        let (cause, values) = match fault {
            WalFault::Store(refused) => return Refusal::from(refused),
            WalFault::Fenced(id) => (Cause::Fenced, Values::One(id)),
            WalFault::WalTruncated(id) => (Cause::WalTruncated, Values::One(id)),
            WalFault::Closed => (Cause::Closed, Values::None),
            WalFault::DataError { file, line, place } => (
                Cause::DataError,
                Values::Three(file, line as u64, place as u64),
            ),
            WalFault::InternalError {
                id,
                least,
                greatest,
            } => (Cause::InternalError, Values::Three(id, least, greatest)),
            WalFault::InvalidSSTBatchSize(window) => {
                (Cause::InvalidSSTBatchSize, Values::One(window))
            }
            WalFault::InvalidDBState(start) => (Cause::InvalidDBState, Values::One(start)),
            WalFault::IdsSpent(id) => (Cause::IdsSpent, Values::One(id)),
            WalFault::Attempts(id) => (Cause::Attempts, Values::One(id)),
            WalFault::OutOfOrder(line) => (Cause::OutOfOrder, Values::One(line as u64)),
            WalFault::WriterFull(over) => (Cause::WriterFull, Values::One(over as u64)),
            WalFault::Busy { tickets, requests } => {
                (Cause::Busy, Values::Two(tickets as u64, requests as u64))
            }
            WalFault::TicketsSpent => (Cause::TicketsSpent, Values::One(65_535)),
            WalFault::NotReplayed(fence) => (Cause::NotReplayed, Values::One(fence)),
            WalFault::BlockSize(size) => (Cause::BlockSize, Values::One(size)),
        };
        Refusal { cause, values }
    }
}
