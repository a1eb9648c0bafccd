//! What a fence that was put grants.

ghost use Rattle.std.specs.Prelude.{◌≡◌, ◌^◌, ◌<◌, ◌≤◌};

use super::record::{ManifestRecord, Options};
use rows::BlockSize;

/// The numbers of an opening whose fence was put.
// kept: plain numbers that callers read by name; an opening takes over all but the attempts
#[derive(Drop)]
pub struct Grant {
    pub(crate) manifest: ManifestRecord,
    pub(crate) options: Options,
    pub(crate) block: BlockSize,
    pub(crate) fence: u64,
    pub(crate) attempts: u64,
    ghost some: { 0 < options.sst_batch_size },
    ghost narrow: { options.sst_batch_size ≤ 16 },
    ghost behind: { manifest.replay_after_wal_id < fence },
    ghost small: { fence ≤ 2 ^ 62 },
}

impl Grant {
    /// The id of the fence.
    pub fn fence(&self) -> u64
        ensures { result ≡ self.now.fence }
    {
        self.fence
    }

    /// How many puts it took.
    pub fn attempts(&self) -> u64
        ensures { result ≡ self.now.attempts }
    {
        self.attempts
    }
}
