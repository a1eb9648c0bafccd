//! A replay, as it stands between two calls.

use super::ReplayFault;
use std::marker::Model;
use wal_init::Opening;

mod calls;
mod files;

/// What goes with a table that is handed out.
#[derive(Clone, Copy)]
pub struct ReplayedMemtable {
    /// The last tick, of the record or of a row put so far.
    pub last_tick: i64,
    /// The last number, of the record or of a row put so far.
    pub last_seq: u64,
    /// The last file that was read without fault.
    pub last_wal_id: u64,
}

/// The files of an opening, read back into one table after the other.
#[derive(Drop)]
pub struct WalReplayIterator {
    opening: Opening,
    /// What goes with a table that is handed out now.
    last: ReplayedMemtable,
    greatest: Option<u64>,
    floor: u64,
    terminal_result: Option<Result<(), ReplayFault>>,
    // kept: an end that stands is not yet said where a table is handed out first, so the two change at different times
    ended: bool,
}

impl Model for WalReplayIterator {
    ghost use Rattle.std.specs.Option.{option_map};
    ghost use Rattle.wal_replay.specs.Said.{said};
    ghost use Rattle.wal_replay.specs.Replays.{Meaning};

    ghost Value = { Meaning };

    ghost view = { λ s. record { opening = s.opening; latest_tick = s.last.last_tick; latest_seq = s.last.last_seq; last_wal = s.last.last_wal_id; greatest = s.greatest; floor = s.floor; standing = option_map said s.terminal_result; ended = s.ended } };
}
