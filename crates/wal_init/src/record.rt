//! What an opening is given: the manifest's record and the options.

/// The part of a manifest that an opening needs.
// No more is derived: nothing compares or prints a record.
#[derive(Clone, Copy)]
pub struct ManifestRecord {
    /// The last id whose rows are in tables already.
    pub replay_after_wal_id: u64,
    /// The last number in those tables.
    pub last_l0_seq: u64,
    /// The last tick in those tables.
    pub last_l0_clock_tick: i64,
}

/// How a journal is to be opened, replayed and written.
#[derive(Clone, Copy)]
pub struct Options {
    /// How many of the next files may be asked for ahead, from 1 to 16.
    pub sst_batch_size: usize,
    /// The estimated size at which the current file is to be filed.
    pub max_wal_bytes_size: u64,
    /// The compacted size at which a table is handed out.
    pub max_memtable_bytes: u64,
    /// The size of a table's blocks, from 1 to 65,536.
    pub block_size: u64,
    /// The watermark of a replay, in place of the record's last number.
    pub min_seq: Option<u64>,
}
