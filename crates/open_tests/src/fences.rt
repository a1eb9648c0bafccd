//! Openings at their limits.

use std::test::Fail;
use store::{FaultScript, Mark, MemoryStore, Store, StoreFault};
use wal::WalFault;
use wal_init::{ManifestRecord, Options, fence_and_init};

const LAST: u64 = 4_611_686_018_427_387_904;

/// The fence and the attempts of an opening at an id behind a record's.
fn fence<S: Store>(
    store: &mut S,
    after: u64,
    id: u64,
    window: usize,
) -> Result<(u64, u64), WalFault> {
    let manifest = ManifestRecord {
        replay_after_wal_id: after,
        last_l0_seq: 0,
        last_l0_clock_tick: 0,
    };
    let options = Options {
        sst_batch_size: window,
        max_wal_bytes_size: 65_536,
        max_memtable_bytes: 67_108_864,
        block_size: 4_096,
        min_seq: None,
    };
    let grant = fence_and_init(store, manifest, id, options)?;
    Ok((grant.fence(), grant.attempts()))
}

/// Empty files at the ids from 1 on, below an end.
fn fill<S: Store>(store: &mut S, end: u64) {
    for id in 1..end {
        let _ = store.put(id, b"");
    }
}

#[test]
fn last_id(rt: HostRuntime) -> Result<(), Fail> {
    let mut store = MemoryStore::new(rt.alloc(), 2, 0)?;
    let above = fence(&mut store, 0, LAST + 1, 4);
    let first = fence(&mut store, 0, LAST, 4);
    let second = fence(&mut store, 0, LAST, 4);
    let spent = Err(WalFault::IdsSpent(LAST + 1));
    assert!(rt; above == spent && first == Ok((LAST, 1)) && second == spent);
    Ok(())
}

#[test]
fn record_at_last_id(rt: HostRuntime) -> Result<(), Fail> {
    let mut store = MemoryStore::new(rt.alloc(), 2, 0)?;
    let at = fence(&mut store, LAST, 1, 4);
    let id_first = fence(&mut store, LAST + 2, LAST + 1, 4);
    let below = fence(&mut store, LAST - 1, 1, 4);
    let spent = Err(WalFault::IdsSpent(LAST + 1));
    assert!(rt; at == spent && id_first == spent && below == Ok((LAST, 1)));
    Ok(())
}

#[test]
fn window_first(rt: HostRuntime) -> Result<(), Fail> {
    let mut store = MemoryStore::new(rt.alloc(), 0, 0)?;
    let none = fence(&mut store, LAST + 1, LAST + 1, 0);
    let wide = fence(&mut store, LAST + 1, LAST + 1, 17);
    assert!(rt;
        none == Err(WalFault::InvalidSSTBatchSize(0))
            && wide == Err(WalFault::InvalidSSTBatchSize(17))
    );
    Ok(())
}

#[test]
fn most_attempts(rt: HostRuntime) -> Result<(), Fail> {
    let mut store = MemoryStore::new(rt.alloc(), 4_097, 0)?;
    fill(&mut store, 4_096);
    let last = fence(&mut store, 0, 1, 4);
    let spent = fence(&mut store, 0, 1, 4);
    assert!(rt; last == Ok((4_096, 4_096)) && spent == Err(WalFault::Attempts(4_096)));
    Ok(())
}

#[test]
fn covered_id(rt: HostRuntime) -> Result<(), Fail> {
    let mut store = MemoryStore::new(rt.alloc(), 9, 0)?;
    fill(&mut store, 6);
    let covered = fence(&mut store, 2, 2, 4);
    let behind = fence(&mut store, 2, 3, 4);
    assert!(rt; covered == Ok((6, 1)) && behind == Ok((7, 5)));
    Ok(())
}

#[test]
fn late_fence(rt: HostRuntime) -> Result<(), Fail> {
    let memory = MemoryStore::new(rt.alloc(), 1, 0)?;
    let mut store = FaultScript::new(memory, &[Mark::Late]);
    let late = fence(&mut store, 0, 1, 4);
    let next = fence(&mut store, 0, 1, 4);
    let lost = Err(WalFault::Store(StoreFault::Unavailable(1)));
    assert!(rt; late == lost && next == Err(WalFault::Store(StoreFault::NoRoom(2))));
    Ok(())
}
