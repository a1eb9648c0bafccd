//! Why a text is refused.
ghost use Rattle.std.specs.Prelude.{◌≡◌};
ghost use Rattle.causes.specs.Causes.{says};
ghost use Rattle.row_text.specs.Checks.{fault};
ghost use Rattle.row_text.specs.declared.fault.CheckFault.TheVariants.{Damaged as WasDamaged, BlockSize as WasBlockSize};

use causes::{Cause, Refusal, Values};
use rows::{BadBlockSize, Damage};

/// Why `check` refuses.
#[derive(Clone, Copy)]
pub enum CheckFault {
    /// The text is not well-formed.
    Damaged(Damage),
    /// The block size is 0 or above 65,536.
    BlockSize(u64),
}

impl From<Damage> for CheckFault {
    ghost from_gives = { λ e r. r ≡ WasDamaged e };

    fn from(e: Damage) -> CheckFault {
        CheckFault::Damaged(e)
    }
}

impl From<BadBlockSize> for CheckFault {
    ghost from_gives = { λ e r. r ≡ WasBlockSize e.0 };

    fn from(e: BadBlockSize) -> CheckFault {
        CheckFault::BlockSize(e.0)
    }
}

impl From<CheckFault> for Refusal {
    ghost from_gives = { λ e r. says r ≡ fault e };

    fn from(fault: CheckFault) -> Refusal {
        let (cause, values) = match fault {
            CheckFault::Damaged(damage) => (
                Cause::DataError,
                Values::Three(0, damage.line as u64, damage.place as u64),
            ),
            CheckFault::BlockSize(size) => (Cause::BlockSize, Values::One(size)),
        };
        Refusal { cause, values }
    }
}
