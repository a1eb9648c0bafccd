//! One slot of a window: what the store said of one file.

ghost use Rattle.std.specs.Prelude.{◌≡◌, false};
ghost use Rattle.wal_init.specs.Slots.{Meets, is_waiting, keeps};

use store::{Store, StoreFault};

/// How the asking for a file stands.
// kept: an `Option<Result<usize, StoreFault>>` has the same shape, but each state is matched by its name together with the event
#[derive(Clone, Copy)]
pub enum SlotState {
    /// Not asked yet.
    Waiting,
    /// The file is there, with this length.
    Arrived(usize),
    /// The store refused.
    Refused(StoreFault),
}

/// What can come to a slot.
#[derive(Clone, Copy)]
pub enum Event {
    /// The file is asked for ahead of its turn.
    Arrival,
    /// The file's turn has come, and the slot is free for another.
    Taking,
}

/// The state that keeps an answer.
impl From<Result<usize, StoreFault>> for SlotState {
    ghost from_gives = { λ e r. r ≡ keeps e };

    fn from(answer: Result<usize, StoreFault>) -> SlotState {
        match answer {
            Ok(len) => SlotState::Arrived(len),
            Err(fault) => SlotState::Refused(fault),
        }
    }
}

impl SlotState {
    /// Whether the file was not asked for yet.
    pub fn is_waiting(self) -> bool
        ensures { result ≡ is_waiting self }
    {
        matches!(self, SlotState::Waiting)
    }

    /// Lets an event come to the slot of an id, and gives the store's answer of now or before.
    pub fn meet<S: Store>(
        &mut self,
        store: &mut S,
        id: u64,
        event: Event,
    ) -> Result<usize, StoreFault>
        ensures met { Meets (S.Store.means store.old) (S.Store.means store.new) self.old self.new id event result }
        ensures untouched { is_waiting self.old ≡ false → store.new ≡ store.old }
    {
        match (*self, event) {
            (SlotState::Waiting, Event::Arrival) => {
                let answer = store.head(id);
                *self = SlotState::from(answer);
                answer
            }
            (SlotState::Waiting, Event::Taking) => store.head(id),
            (SlotState::Arrived(len), Event::Arrival) => Ok(len),
            (SlotState::Arrived(len), Event::Taking) => {
                *self = SlotState::Waiting;
                Ok(len)
            }
            (SlotState::Refused(fault), Event::Arrival) => Err(fault),
            (SlotState::Refused(fault), Event::Taking) => {
                *self = SlotState::Waiting;
                Err(fault)
            }
        }
    }
}
