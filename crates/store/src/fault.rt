//! The causes for which a store refuses a call.

ghost use Rattle.std.specs.Prelude.{◌≡◌};
ghost use Rattle.causes.specs.Causes.{says};
ghost use Rattle.store.specs.Said.{fault};

use causes::{Cause, Refusal, Values};

/// Why a store refused a call, with the value that the cause returns.
#[derive(Clone, Copy, PartialEq, Eq, Debug)]
pub enum StoreFault {
    /// 1: the id already has a file.
    Exists(u64),
    /// 2: the id has no file.
    Missing(u64),
    /// 3: the file at this id needs more places or bytes than are left.
    NoRoom(u64),
    /// 4: the text for this id has more than 16,384 bytes.
    TooLong(u64),
    /// 5: the buffer is shorter than the file, which needs this length.
    Short(usize),
    /// 6: the store could not say how the call for this id went.
    Unavailable(u64),
}

impl From<StoreFault> for Refusal {
    ghost from_gives = { λ e r. says r ≡ fault e };

    fn from(fault: StoreFault) -> Refusal {
        let (cause, value) = match fault {
            StoreFault::Exists(id) => (Cause::Exists, id),
            StoreFault::Missing(id) => (Cause::Missing, id),
            StoreFault::NoRoom(id) => (Cause::NoRoom, id),
            StoreFault::TooLong(id) => (Cause::TooLong, id),
            StoreFault::Short(length) => (Cause::Short, length as u64),
            StoreFault::Unavailable(id) => (Cause::Unavailable, id),
        };
        Refusal {
            cause,
            values: Values::One(value),
        }
    }
}
