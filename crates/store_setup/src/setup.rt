//! The store of a script, as its lines set it up.
ghost use Rattle.std.specs.Prelude.{◌≡◌, ◌-◌, true, false, IfOk, MatchResult};
ghost use Rattle.script.specs.declared.reason.Reason.TheVariants.{TooLate as WasTooLate};
ghost use Rattle.script.specs.Words.{listed};
ghost use Rattle.store_setup.specs.Setups.{Begins, SetsMarks, SetsRoom, store_of};

use crate::marks::{fresh, marks_of};
use crate::stop::Stop;
use script::reason::Reason;
use script::words::Words;
use std::alloc::{AllocError, Global};
use store::{FaultScript, Mark, MemoryStore};

/// How many files a store takes before a line says otherwise.
const PLACES: usize = 1024;

/// How many bytes it takes.
const BYTES: usize = 16_777_216;

/// The store that a script works on. Lines set its room and its marks until a first call has begun.
#[derive(Drop)]
pub struct StoreSetup {
    pub store: FaultScript<MemoryStore>,
    pub begun: bool,
    heap: Global,
    places: usize,
    bytes: usize,
    marks: Vec<Mark>,
}

impl StoreSetup {
    /// The store before the first line.
    pub fn new(heap: Global) -> Result<StoreSetup, AllocError>
        ensures { IfOk result Begins }
    {
        let store = fresh(heap, PLACES, BYTES, &[])?;
        Ok(StoreSetup {
            store,
            begun: false,
            heap,
            places: PLACES,
            bytes: BYTES,
            marks: Vec::new(heap),
        })
    }

    /// Refuses where a call has begun.
    pub fn check_early(&self) -> Result<(), Reason>
        ensures { MatchResult result (λ _. self.now.begun ≡ false) (λ e. (self.now.begun ≡ true) × (e ≡ WasTooLate)) }
    {
        if self.begun {
            return Err(Reason::TooLate);
        }
        Ok(())
    }

    /// A store with other room.
    pub fn set_room(&mut self, places: u64, bytes: u64) -> Result<(), Stop>
        ensures { SetsRoom self.old places bytes result self.new }
    {
        self.check_early()?;
        let places = places as usize;
        let bytes = bytes as usize;
        self.store = fresh(self.heap, places, bytes, self.marks.as_slice())?;
        self.places = places;
        self.bytes = bytes;
        Ok(())
    }

    /// The store under other marks.
    pub fn set_marks(&mut self, words: Words<'_>) -> Result<(), Stop>
        ensures { SetsMarks self.old (listed words.entry) result self.new }
    {
        self.check_early()?;
        let marks = marks_of(self.heap, words)?;
        self.store = fresh(self.heap, self.places, self.bytes, marks.as_slice())?;
        self.marks = marks;
        Ok(())
    }

    /// How many files and bytes the store has taken of its room.
    pub fn taken(&self) -> (usize, usize)
        ensures files { result.0 ≡ self.now.places - (store_of self.now).held.places }
        ensures bytes { result.1 ≡ self.now.bytes - (store_of self.now).held.bytes }
    {
        let (places, bytes) = self.store.inner().room();
        (
            self.places.saturating_sub(places),
            self.bytes.saturating_sub(bytes),
        )
    }
}

#[cfg(test)]
mod tests {
    use super::*;
    use std::test::Fail;
    use store::Store;

    #[test]
    fn set_until_a_call(rt: HostRuntime) -> Result<(), Fail> {
        let mut setup = StoreSetup::new(rt.alloc())?;
        assert!(rt; setup.set_room(1, 3).is_ok());
        assert!(rt;
            setup
                .set_marks(Words::from(Some(b"lost fair".as_slice())))
                .is_ok()
        );
        assert!(rt; setup.store.put(1, b"abc").is_err());
        assert!(rt; setup.store.put(1, b"abc").is_ok());
        assert_eq!(rt; setup.taken(), (1, 3));
        setup.begun = true;
        assert!(rt; setup.set_room(2, 2).is_err());
        Ok(())
    }
}
