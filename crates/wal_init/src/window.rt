//! The window of an opening: the next files to read, each asked for once.

use super::slot::SlotState;
use std::marker::Model;
use store::StoreFault;

mod moves;

/// The most slots that a window has.
pub const MOST_SLOTS: usize = 16;

/// The unread ids from one on up to the last, and slots for the first of them.
#[derive(Drop)]
pub struct Window {
    next: u64,
    end: u64,
    most: usize,
    // kept: how many count follows from the three numbers, and no length is stored: an ArrayVec's would be one more to hold in step
    slots: [SlotState; MOST_SLOTS],
}

impl Model for Window {
    ghost use Rattle.std.specs.Prelude.{◌≡◌, ◌+◌, ◌^◌, ◌<◌, ◌≤◌, length};
    ghost use Rattle.wal_init.specs.Windows.{Windowed};

    ghost Value = { Windowed };

    ghost view = { λ w. record { next = w.next; end = w.end; most = w.most; slots = w.slots } };

    ghost invariant = { λ w. (w.end ≤ 2 ^ 62) × (w.next ≤ w.end + 1) × (0 < w.most) × (w.most ≤ 16) × (length w.slots ≡ 16) };
}

/// A file whose turn has come: its id, and what the store answered when it was asked for it.
#[derive(Clone, Copy)]
pub struct Front {
    pub wal_id: u64,
    pub answer: Result<usize, StoreFault>,
}
