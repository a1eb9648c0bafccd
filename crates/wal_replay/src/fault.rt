//! The causes for which a replay refuses.

ghost use Rattle.std.specs.Prelude.{◌≡◌};
ghost use Rattle.causes.specs.Causes.{says};
ghost use Rattle.wal_replay.specs.Said.{fault};
ghost use Rattle.wal_replay.specs.declared.fault.ReplayFault.TheVariants.{Wal};

use causes::{Cause, Refusal, Values};
use wal::WalFault;

/// Why a replay refused a call, with the values that the cause returns.
#[derive(Clone, Copy, PartialEq, Eq, Debug)]
pub enum ReplayFault {
    /// 1 to 20, 23 and 24: the journal refused, and this is its whole fault.
    Wal(WalFault),
    /// 21: the table given holds so many rows.
    TableInUse(usize),
    /// 22: the rows of this file need more than the table has left.
    TableFull(u64),
}

impl From<WalFault> for ReplayFault {
    ghost from_gives = { λ e r. r ≡ Wal e };

    fn from(fault: WalFault) -> ReplayFault {
        ReplayFault::Wal(fault)
    }
}

impl From<ReplayFault> for Refusal {
    ghost from_gives = { λ e r. says r ≡ fault e };

    fn from(fault: ReplayFault) -> Refusal {
        let (cause, value) = match fault {
            ReplayFault::Wal(refused) => return Refusal::from(refused),
            ReplayFault::TableInUse(rows) => (Cause::TableInUse, rows as u64),
            ReplayFault::TableFull(id) => (Cause::TableFull, id),
        };
        Refusal {
            cause,
            values: Values::One(value),
        }
    }
}
