//! Why a text is not loaded.
ghost use Rattle.std.specs.Prelude.{◌≡◌};
ghost use Rattle.causes.specs.Causes.{says};
ghost use Rattle.loader.specs.Loads.{fault};
ghost use Rattle.loader.specs.declared.fault.LoadFault.TheVariants.{Damaged as WasDamaged, Table as WasTable};

use causes::{Cause, Refusal, Values};
use mem_table::TableFault;
use rows::Damage;

/// Why a text was not loaded whole.
#[derive(Clone, Copy)]
pub enum LoadFault {
    /// The text is not well-formed; no row was put.
    Damaged(Damage),
    /// The table refused a row; those before it were put.
    Table(TableFault),
}

impl From<Damage> for LoadFault {
    ghost from_gives = { λ e r. r ≡ WasDamaged e };

    fn from(e: Damage) -> LoadFault {
        LoadFault::Damaged(e)
    }
}

impl From<TableFault> for LoadFault {
    ghost from_gives = { λ e r. r ≡ WasTable e };

    fn from(e: TableFault) -> LoadFault {
        LoadFault::Table(e)
    }
}

impl From<LoadFault> for Refusal {
    ghost from_gives = { λ e r. says r ≡ fault e };

    fn from(fault: LoadFault) -> Refusal {
        match fault {
            LoadFault::Damaged(damage) => Refusal {
                cause: Cause::DataError,
                values: Values::Three(0, damage.line as u64, damage.place as u64),
            },
            LoadFault::Table(refused) => Refusal::from(refused),
        }
    }
}
