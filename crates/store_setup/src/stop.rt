//! Why a line is not performed.
ghost use Rattle.std.specs.Prelude.{◌≡◌};
ghost use Rattle.store_setup.specs.Stops.{stopped};
ghost use Rattle.store_setup.specs.declared.stop.Stop.TheVariants.{NoMemory as HadNoMemory, Script as WasScript};

use script::hex::TextFault;
use script::reason::Reason;
use std::alloc::AllocError;

/// Why a line was not performed.
#[derive(Clone, Copy)]
pub enum Stop {
    Script(Reason),
    NoMemory,
}

impl From<Reason> for Stop {
    ghost from_gives = { λ e r. r ≡ WasScript e };

    fn from(reason: Reason) -> Stop {
        Stop::Script(reason)
    }
}

impl From<TextFault> for Stop {
    ghost from_gives = { λ f r. r ≡ stopped f };

    fn from(fault: TextFault) -> Stop {
        match fault {
            TextFault::NotHex => Stop::Script(Reason::NotHex),
            TextFault::NoMemory => Stop::NoMemory,
        }
    }
}

impl From<AllocError> for Stop {
    ghost from_gives = { λ _ r. r ≡ HadNoMemory };

    fn from(_e: AllocError) -> Stop {
        Stop::NoMemory
    }
}
