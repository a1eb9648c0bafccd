//! Why a table refuses a row.
ghost use Rattle.std.specs.Prelude.{◌≡◌};
ghost use Rattle.causes.specs.Causes.{says};
ghost use Rattle.mem_table.specs.Said.{fault};

use causes::{Cause, Refusal, Values};

/// Why a table refused a call, with the value that the cause returns.
#[derive(Clone, Copy, Debug)]
pub enum TableFault {
    /// 3: the row of this number needs more puts or bytes than are left.
    NoRoom(u64),
}

impl From<TableFault> for Refusal {
    ghost from_gives = { λ e r. says r ≡ fault e };

    fn from(fault: TableFault) -> Refusal {
        let TableFault::NoRoom(number) = fault;
        Refusal {
            cause: Cause::NoRoom,
            values: Values::One(number),
        }
    }
}
