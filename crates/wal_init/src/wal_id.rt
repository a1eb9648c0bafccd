//! The ids that files may have.

ghost use Rattle.std.specs.Prelude.{◌^◌, ◌≤◌};

use wal::{LAST_ID, WalFault};

/// An id that a file may have.
#[derive(Clone, Copy)]
pub struct WalId {
    pub number: u64,
    ghost small: { number ≤ 2 ^ 62 },
}

impl TryFrom<u64> for WalId {
    ghost use Rattle.std.specs.Prelude.{◌≡◌};
    ghost use Rattle.wal_init.specs.WriterInit.{said_id, id_says};

    type Error = WalFault;

    ghost try_from_gives = { λ n r. said_id r ≡ id_says n };

    fn try_from(number: u64) -> Result<WalId, WalFault> {
        if number > LAST_ID {
            return Err(WalFault::IdsSpent(number));
        }
        Ok(WalId { number })
    }
}
