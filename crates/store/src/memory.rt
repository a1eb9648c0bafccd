//! A store in memory, all of which is reserved when it is made.

ghost use Rattle.std.specs.Prelude.{◌+◌, ◌≤◌, vec_len, vec_capacity};
ghost use Rattle.store.specs.Index.{Inside};

use super::index::Index;

mod answers;

/// Files in one text, found by an index in the order of their ids.
// One text, since a text for each file would ask for memory in a call. No model, since what a store holds has a function
// for its files, and a model's value can hold none.
// The room left is counted, since a vector may reserve more than was asked for.
#[derive(Drop)]
pub struct MemoryStore {
    index: Index,
    text: Vec<u8>,
    places: usize,
    bytes: usize,
    ghost indexed: { vec_len index.extents + places ≤ vec_capacity index.extents },
    ghost spare: { vec_len text + bytes ≤ vec_capacity text },
    ghost inside: { Inside index.extents.items (vec_len text) },
}
