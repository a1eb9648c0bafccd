//! A script at the limit of its marks.

use std::test::Fail;
use store::{FaultScript, Mark, MemoryStore, Store, StoreFault};

/// How many of 70 calls are lost under so many lost marks.
fn lost(heap: std::alloc::Global, marks: &[Mark]) -> Result<usize, std::alloc::AllocError> {
    let memory = MemoryStore::new(heap, 1, 1)?;
    let mut store = FaultScript::new(memory, marks);
    let refused = Err(StoreFault::Unavailable(0));
    Ok((0..70).filter(|_| store.head(0) == refused).count())
}

#[test]
fn marks_are_cut_at_64(rt: HostRuntime) -> Result<(), Fail> {
    let marks = [Mark::Lost; 65];
    assert_eq!(rt; lost(rt.alloc(), &marks[0..63])?, 63);
    assert_eq!(rt; lost(rt.alloc(), &marks[0..64])?, 64);
    assert_eq!(rt; lost(rt.alloc(), &marks)?, 64);
    Ok(())
}
