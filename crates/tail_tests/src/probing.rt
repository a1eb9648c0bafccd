//! A probe over a script of marks.

use std::alloc::{AllocError, Global};
use store::{FaultScript, Mark, MemoryStore, Store, StoreFault};
use wal::{WalFault, last_seen_wal_id};

/// Fair marks, of which one is lost: the one after so many.
pub fn lost_after(calls: usize) -> [Mark; 64] {
    let mut marks = [Mark::Fair; 64];
    if let Some(mark) = marks.get_mut(calls) {
        *mark = Mark::Lost;
    }
    marks
}

/// A store with empty files at the ids 1 to n.
pub fn filled(heap: Global, n: u64) -> Result<MemoryStore, AllocError> {
    let mut store = MemoryStore::new(heap, 300, 0)?;
    for id in 1..=n {
        let _ = store.put(id, b"");
    }
    Ok(store)
}

/// A store with empty files at the first n powers of two.
pub fn powers(heap: Global, n: u32) -> Result<MemoryStore, AllocError> {
    let mut store = MemoryStore::new(heap, 64, 0)?;
    for exp in 0..n {
        let _ = store.put(1 << exp.min(63), b"");
    }
    Ok(store)
}

/// The answer of a probe under the marks, and whether the call after it is lost.
pub fn probe(
    memory: MemoryStore,
    start: u64,
    marks: &[Mark],
) -> (Result<(u64, u32), WalFault>, bool) {
    let mut store = FaultScript::new(memory, marks);
    let answer = last_seen_wal_id(&mut store, start);
    let next = store.head(0) == Err(StoreFault::Unavailable(0));
    (answer, next)
}
