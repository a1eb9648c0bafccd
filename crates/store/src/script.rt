//! A store whose calls go as a script of marks says.

ghost use Rattle.std.specs.Prelude.{◌≤◌, length};

use super::{Mark, Store, StoreFault};
use arrayvec::{ArrayVec, IntoIter};

/// The most marks that a script keeps.
const LIMIT: usize = 64;

/// A store under a script of marks, of which each call uses one.
// No model: what it means rests on what the store below means, which a model's value cannot name.
#[derive(Drop)]
pub struct FaultScript<S> {
    below: S,
    script: IntoIter<Mark, LIMIT>,
    ghost few: { length script ≤ 64 },
}

impl<S: Store> FaultScript<S> {
    ghost use Rattle.std.specs.Prelude.{◌≡◌, take};
    ghost use Rattle.store.specs.Marks.{next_mark, one_used};
    ghost use Rattle.store.specs.Scripted.{marks_left};

    /// The store under the first 64 of the marks.
    pub fn new(below: S, marks: &[Mark]) -> FaultScript<S>
        ensures below { result.below ≡ below }
        ensures marks { marks_left result ≡ take 64 marks.now }
    {
        let mut kept = ArrayVec::new();
        let _ = kept.try_extend_from_slice(&marks[..marks.len().min(LIMIT)]);
        FaultScript {
            below,
            script: kept.into_iter(),
        }
    }

    /// The store below.
    pub fn inner(&self) -> &S
        ensures { result.now ≡ self.now.below }
    {
        &self.below
    }

    /// Gives the store below back, without the script.
    pub fn into_inner(self) -> S
        ensures { result ≡ self.below }
    {
        let FaultScript { below, script: _ } = self;
        below
    }

    /// The mark of one call, which it uses up.
    fn draw(&mut self) -> Mark
        ensures value { result ≡ next_mark (marks_left self.old) }
        ensures after { marks_left self.new ≡ one_used (marks_left self.old) }
        ensures below { self.new.below ≡ self.old.below }
    {
        self.script.next().unwrap_or_default()
    }
}

// `head` and `read` go alike, and each is shorter than a call of one function for both, with its closure's clauses.
impl<S: Store> Store for FaultScript<S> {
    ghost use Rattle.store.specs.Calls.{Put, Head, Read};
    ghost use Rattle.store.specs.Scripted.{scripted, ScriptedPut, ScriptedHead, ScriptedRead};

    ghost means = { scripted S.Store.means };

    fn put(&mut self, id: u64, text: &[u8]) -> Result<(), StoreFault>
        ensures answers { Put (scripted S.Store.means self.old) (scripted S.Store.means self.new) id text.now result }
        ensures script { ScriptedPut S.Store.means self.old self.new id text.now result }
    {
        match self.draw() {
            Mark::Fair => self.below.put(id, text),
            Mark::Lost => Err(StoreFault::Unavailable(id)),
            Mark::Late => {
                let _ = self.below.put(id, text);
                Err(StoreFault::Unavailable(id))
            }
        }
    }

    fn head(&mut self, id: u64) -> Result<usize, StoreFault>
        ensures answers { Head (scripted S.Store.means self.old) (scripted S.Store.means self.new) id result }
        ensures script { ScriptedHead S.Store.means self.old self.new id result }
    {
        match self.draw() {
            Mark::Fair => self.below.head(id),
            Mark::Lost | Mark::Late => Err(StoreFault::Unavailable(id)),
        }
    }

    fn read(&mut self, id: u64, buffer: &mut [u8]) -> Result<usize, StoreFault>
        ensures answers { Read (scripted S.Store.means self.old) (scripted S.Store.means self.new) id buffer.old buffer.new result }
        ensures script { ScriptedRead S.Store.means self.old self.new id buffer.old buffer.new result }
    {
        match self.draw() {
            Mark::Fair => self.below.read(id, buffer),
            Mark::Lost | Mark::Late => Err(StoreFault::Unavailable(id)),
        }
    }
}
