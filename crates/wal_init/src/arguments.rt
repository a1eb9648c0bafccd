//! The arguments of an opening.

ghost use Rattle.std.specs.Prelude.{◌^◌, ◌<◌, ◌≤◌};

use super::record::{ManifestRecord, Options};
use super::wal_id::WalId;
use super::window::MOST_SLOTS;
use rows::BlockSize;
use store::Store;
use wal::{WalFault, last_seen_wal_id};

/// What an opening was given, with nothing against it.
#[derive(Drop)]
pub struct Arguments {
    pub manifest: ManifestRecord,
    pub id: WalId,
    pub options: Options,
    pub block: BlockSize,
    ghost after: { manifest.replay_after_wal_id ≤ 2 ^ 62 },
    ghost some: { 0 < options.sst_batch_size },
    ghost narrow: { options.sst_batch_size ≤ 16 },
}

impl Arguments {
    ghost use Rattle.std.specs.Prelude.{◌≡◌, IfOk};
    ghost use Rattle.wal_init.specs.WriterInit.{said_id, Checked, Begins};

    /// Checks the window, the id given, the record's id and the block size, in this order.
    pub fn check(manifest: ManifestRecord, id: u64, options: Options) -> Result<Arguments, WalFault>
        ensures { Checked manifest id options result }
    {
        let window = options.sst_batch_size;
        if window < 1 || window > MOST_SLOTS {
            return Err(WalFault::InvalidSSTBatchSize(window as u64));
        }
        let id = WalId::try_from(id)?;
        let _ = WalId::try_from(manifest.replay_after_wal_id)?;
        let block = BlockSize::new(options.block_size).map_err(|bad| WalFault::BlockSize(bad.0))?;
        Ok(Arguments {
            manifest,
            id,
            options,
            block,
        })
    }

    /// The id at which the first fence is put: the one given, or one more than the tail where the record covers that one already.
    pub fn first_id<S: Store>(&self, store: &mut S) -> Result<WalId, WalFault>
        ensures begins { Begins (S.Store.means store.old) (S.Store.means store.new) self.now.manifest self.now.id.number (said_id result) }
        ensures ahead { IfOk result (λ n. self.now.manifest.replay_after_wal_id < n.number) }
    {
        let after = self.manifest.replay_after_wal_id;
        if self.id.number > after {
            return Ok(self.id);
        }
        let (tail, _) = last_seen_wal_id(store, after)?;
        WalId::try_from(tail + 1)
    }
}
