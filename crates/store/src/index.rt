//! An index of extents, kept in the order of their ids.

ghost use Rattle.std.specs.Prelude.{◌≡◌, ℕ, ◌+◌, ◌<◌, ◌≤◌, if◌then◌else◌, [], Some, vec_len, vec_capacity, MatchResult, IfOk, nat_eq};
ghost use Rattle.store.specs.Index.{extent_of, Ascending, Present, Absent};

use super::extent::Extent;
use std::alloc::{AllocError, Global};

/// Extents in the order of their ids.
// A sorted vector, since a map would ask for memory in a call: here it is all reserved at the making.
#[derive(Drop)]
pub(crate) struct Index {
    extents: Vec<Extent>,
    ghost ordered: { Ascending extents.items },
}

impl Index {
    /// An empty index with memory for so many extents.
    pub(crate) fn with_capacity(heap: Global, places: usize) -> Result<Index, AllocError>
        ensures empty { IfOk result (λ x. x.extents.items ≡ []) }
        ensures reserved { IfOk result (λ x. places ≤ vec_capacity x.extents) }
    {
        let extents = Vec::with_capacity(heap, places)?;
        Ok(Index { extents })
    }

    /// The place of an id, or the place where it would stand.
    pub(crate) fn locate(&self, id: u64) -> Result<usize, usize>
        ensures { MatchResult result (λ n. Present self.now.extents.items id n) (λ n. Absent self.now.extents.items id n) }
    {
        // A loop of our own, which ends at the id: the library's search goes on to the end.
        let mut low = 0;
        let mut high = self.extents.len();
        while low < high {
            let middle = low + (high - low) / 2;
            let found = self.extents[middle].id;
            if found == id {
                return Ok(middle);
            }
            if found < id {
                low = middle + 1;
            } else {
                high = middle;
            }
        }
        Err(low)
    }

    /// The extent of an id.
    pub(crate) fn find(&self, id: u64) -> Option<Extent>
        ensures { result ≡ extent_of self.now.extents.items id }
    {
        let n = self.locate(id).ok()?;
        Some(self.extents[n])
    }

    /// Inserts an extent at its place, for which memory is reserved.
    pub(crate) fn insert(&mut self, n: usize, extent: Extent)
        requires absent { Absent self.old.extents.items extent.id n }
        requires reserved { vec_len self.old.extents < vec_capacity self.old.extents }
        ensures len { vec_len self.new.extents ≡ vec_len self.old.extents + 1 }
        ensures capacity { vec_capacity self.new.extents ≡ vec_capacity self.old.extents }
        ensures finds { (k : ℕ) → extent_of self.new.extents.items k ≡ (if nat_eq k extent.id then Some extent else extent_of self.old.extents.items k) }
    {
        let _ = self.extents.insert(n, extent);
    }
}
