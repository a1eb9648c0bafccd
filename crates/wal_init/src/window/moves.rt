//! What happens to a window.

ghost use Rattle.std.specs.Prelude.{◌≡◌, ◌+◌, ◌^◌, ◌<◌, ◌≤◌, false};
ghost use Rattle.wal_init.specs.Windows.{open_slots, begun, over, unasked, Arrives, Sound, Takes};

use super::{Front, MOST_SLOTS, Window};
use crate::slot::{Event, SlotState};
use store::Store;

impl Window {
    /// The window over the ids from one on up to the last, with at most so many slots.
    pub fn new(next: u64, end: u64, most: usize) -> Window
        requires within { (next ≤ end + 1) × (end ≤ 2 ^ 62) }
        requires slots { (0 < most) × (most ≤ 16) }
        ensures { result ≡ begun next end most }
    {
        Window {
            next,
            end,
            most,
            slots: [SlotState::Waiting; MOST_SLOTS],
        }
    }

    /// The last id.
    pub fn end(&self) -> u64
        ensures end { result ≡ self.now.end }
        ensures sound { Sound self.now }
    {
        self.end
    }

    /// How many slots there are: as many as fit before the end.
    fn open_slots(&self) -> usize
        ensures value { result ≡ open_slots self.now }
        ensures few { result ≤ 16 }
    {
        let left = self.end + 1 - self.next;
        left.min(self.most as u64) as usize
    }

    /// Asks for the file so far behind the front, once, and says whether it asked.
    pub fn arrive<S: Store>(&mut self, store: &mut S, k: usize) -> bool
        ensures arrives { Arrives (S.Store.means store.old) (S.Store.means store.new) self.old self.new k result }
        ensures sound { Sound self.new }
        ensures untouched { result ≡ false → store.new ≡ store.old }
    {
        if k >= self.open_slots() {
            return false;
        }
        let asks = self.slots[k].is_waiting();
        let _ = self.slots[k].meet(store, self.next + k as u64, Event::Arrival);
        asks
    }

    /// Takes the file at the front, which is asked for if it was not before, and moves the window on.
    pub fn take_front<S: Store>(&mut self, store: &mut S) -> Option<Front>
        ensures takes { Takes (S.Store.means store.old) (S.Store.means store.new) self.old self.new result }
        ensures sound { Sound self.new }
        ensures untouched { unasked self.old 0 ≡ false → store.new ≡ store.old }
    {
        if self.next > self.end {
            return None;
        }
        let wal_id = self.next;
        let answer = self.slots[0].meet(store, wal_id, Event::Taking);
        self.slots.rotate_left(1);
        self.next += 1;
        Some(Front { wal_id, answer })
    }

    /// Leaves no slots.
    pub fn terminate(&mut self)
        ensures { self.new ≡ over self.old }
    {
        *self = Window::new(self.end + 1, self.end, self.most);
    }
}
