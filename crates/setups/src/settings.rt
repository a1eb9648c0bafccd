//! The values that the lines of a script set for later calls.
ghost use Rattle.std.specs.Prelude.{◌≡◌, IfOk};
ghost use Rattle.mem_table.specs.Meaning.{empty};
ghost use Rattle.setups.specs.Settings.{begin, opening_options};
ghost use Rattle.setups.specs.Tables.{table_means};

use crate::fresh_table::AnyTable;
use commands::command::TableKind;
use commands::options::Options;
use std::alloc::{AllocError, Global};
use tables::{ArrivalLog, MOST_BYTES, MOST_PUTS, SortedTable};
use wal_init::ManifestRecord;

/// The options, the manifest's record, and the kind and room of tables.
#[derive(Clone, Copy)]
pub struct Settings {
    pub options: Options,
    pub manifest: ManifestRecord,
    pub table: TableKind,
    pub puts: usize,
    pub bytes: usize,
}

impl Default for Settings {
    ghost is_default = { λ s. s ≡ begin };

    /// The settings at the beginning of a script.
    fn default() -> Settings {
        Settings {
            options: Options::default(),
            manifest: ManifestRecord {
                replay_after_wal_id: 0,
                last_l0_seq: 0,
                last_l0_clock_tick: 0,
            },
            table: TableKind::Sorted,
            puts: MOST_PUTS,
            bytes: MOST_BYTES,
        }
    }
}

// The options of a script and of an opening are two types: neither crate knows the other.
impl From<Settings> for wal_init::Options {
    ghost from_gives = { λ s r. r ≡ opening_options s };

    /// The options as an opening takes them.
    fn from(settings: Settings) -> wal_init::Options {
        let options = settings.options;
        wal_init::Options {
            sst_batch_size: options.sst_batch_size as usize,
            max_wal_bytes_size: options.max_wal_bytes_size,
            max_memtable_bytes: options.max_memtable_bytes,
            block_size: options.block_size,
            min_seq: options.min_seq,
        }
    }
}

impl Settings {
    /// A fresh table of the kind and with the room that are set.
    pub fn fresh_table(self, heap: Global) -> Result<AnyTable, AllocError>
        ensures { IfOk result (λ t. table_means t ≡ empty self.puts self.bytes) }
    {
        let Settings {
            table,
            puts,
            bytes,
            ..
        } = self;
        Ok(match table {
            TableKind::Sorted => AnyTable::Sorted(SortedTable::new(heap, puts, bytes)?),
            TableKind::Log => AnyTable::Log(ArrivalLog::new(heap, puts, bytes)?),
        })
    }
}

#[cfg(test)]
mod tests {
    use super::*;
    use mem_table::Table;
    use std::test::Fail;

    #[test]
    fn both_kinds(rt: HostRuntime) -> Result<(), Fail> {
        let mut settings = Settings {
            puts: 2,
            bytes: 3,
            ..Settings::default()
        };
        assert_eq!(rt; settings.fresh_table(rt.alloc())?.room(), (2, 3));
        settings.table = TableKind::Log;
        assert_eq!(rt; settings.fresh_table(rt.alloc())?.room(), (2, 3));
        Ok(())
    }
}
