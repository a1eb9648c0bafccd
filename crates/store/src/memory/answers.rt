//! What a store in memory answers to each call.

ghost use Rattle.std.specs.Prelude.{◌≡◌, ◌+◌, ◌<◌, ◌≤◌, length, IfOk};
ghost use Rattle.std.specs.Option.{option_map};
ghost use Rattle.store.specs.Meaning.{added, empty, steady_store};
ghost use Rattle.store.specs.Index.{Absent};
ghost use Rattle.store.specs.Memory.{memory_holds, memory_means};

use super::MemoryStore;
use crate::extent::Extent;
use crate::index::Index;
use crate::{MOST_BYTES, Store, StoreFault};
use std::alloc::{AllocError, Global};

impl MemoryStore {
    /// An empty, steady store with room for so many files and bytes.
    pub fn new(heap: Global, places: usize, bytes: usize) -> Result<MemoryStore, AllocError>
        ensures { IfOk result (λ s. memory_means s ≡ steady_store (empty places bytes)) }
    {
        let index = Index::with_capacity(heap, places)?;
        let text = Vec::with_capacity(heap, bytes)?;
        Ok(MemoryStore {
            index,
            text,
            places,
            bytes,
        })
    }

    /// How many more files and bytes it takes.
    pub fn room(&self) -> (usize, usize)
        ensures places { result.0 ≡ (memory_holds self.now).places }
        ensures bytes { result.1 ≡ (memory_holds self.now).bytes }
    {
        (self.places, self.bytes)
    }

    /// The text of an id's file.
    fn file(&self, id: u64) -> Option<&[u8]>
        ensures { option_map (λ x. x.now) result ≡ (memory_holds self.now).files id }
    {
        let Extent { id: _, start, len } = self.index.find(id)?;
        Some(&self.text[start..start + len])
    }

    /// Adds a file to an id that has none, where there is room for it.
    fn add(&mut self, n: usize, id: u64, text: &[u8])
        requires absent { Absent self.old.index.extents.items id n }
        requires place { 0 < self.old.places }
        requires limit { length text.now ≤ 16384 }
        requires room { length text.now ≤ self.old.bytes }
        ensures { memory_holds self.new ≡ added (memory_holds self.old) id text.now }
    {
        let start = self.text.len();
        let len = text.len();
        let _ = self.text.extend_from_slice(text);
        self.index.insert(n, Extent { id, start, len });
        self.places -= 1;
        self.bytes -= len;
    }
}

impl Store for MemoryStore {
    ghost means = { memory_means };

    fn put(&mut self, id: u64, text: &[u8]) -> Result<(), StoreFault> {
        if text.len() > MOST_BYTES {
            return Err(StoreFault::TooLong(id));
        }
        let Err(n) = self.index.locate(id) else {
            return Err(StoreFault::Exists(id));
        };
        if self.places < 1 || self.bytes < text.len() {
            return Err(StoreFault::NoRoom(id));
        }
        self.add(n, id, text);
        Ok(())
    }

    fn head(&mut self, id: u64) -> Result<usize, StoreFault> {
        let text = self.file(id).ok_or(StoreFault::Missing(id))?;
        Ok(text.len())
    }

    fn read(&mut self, id: u64, buffer: &mut [u8]) -> Result<usize, StoreFault> {
        let text = self.file(id).ok_or(StoreFault::Missing(id))?;
        let len = text.len();
        if buffer.len() < len {
            return Err(StoreFault::Short(len));
        }
        buffer[..len].copy_from_slice(text);
        Ok(len)
    }
}
