//! The calls of a store, each by what the store means before and after it.

ghost use Rattle.store.specs.Meaning.{Meaning};
ghost use Rattle.store.specs.Calls.{Put, Head, Read};

use super::StoreFault;

/// The most bytes that a file has.
pub const MOST_BYTES: usize = 16384;

/// A store of numbered files, each written once.
pub trait Store {
    ghost means: { Self → Meaning };

    /// Writes the text as the file of an id that has none.
    fn put(&mut self, id: u64, text: &[u8]) -> Result<(), StoreFault>
        ensures { Put (means self.old) (means self.new) id text.now result };

    /// The length of a file.
    fn head(&mut self, id: u64) -> Result<usize, StoreFault>
        ensures { Head (means self.old) (means self.new) id result };

    /// Copies a file to the buffer's beginning, and answers its length.
    fn read(&mut self, id: u64, buffer: &mut [u8]) -> Result<usize, StoreFault>
        ensures { Read (means self.old) (means self.new) id buffer.old buffer.new result };
}
