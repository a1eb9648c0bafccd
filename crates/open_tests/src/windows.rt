//! Windows at their limits.

use std::test::Fail;
use store::{FaultScript, Mark, MemoryStore, Store, StoreFault};
use wal::WalFault;
use wal_init::{ManifestRecord, Opening, Options, fence_and_init};

/// An opening at an id, of all files.
fn open<S: Store>(store: &mut S, id: u64, window: usize) -> Result<Opening, WalFault> {
    let manifest = ManifestRecord {
        replay_after_wal_id: 0,
        last_l0_seq: 0,
        last_l0_clock_tick: 0,
    };
    let options = Options {
        sst_batch_size: window,
        max_wal_bytes_size: 0,
        max_memtable_bytes: 0,
        block_size: 65_536,
        min_seq: None,
    };
    Ok(Opening::new(fence_and_init(store, manifest, id, options)?))
}

/// The id and the answer of the front, and 0 where there is none.
fn taken<S: Store>(opening: &mut Opening, store: &mut S) -> (u64, Result<usize, StoreFault>) {
    opening
        .take_front(store)
        .map_or((0, Ok(0)), |front| (front.wal_id, front.answer))
}

#[test]
fn narrowest(rt: HostRuntime) -> Result<(), Fail> {
    let mut store = MemoryStore::new(rt.alloc(), 1, 0)?;
    let mut opening = open(&mut store, 2, 1)?;
    let behind = opening.arrive(&mut store, 1);
    let first = opening.arrive(&mut store, 0);
    let again = opening.arrive(&mut store, 0);
    assert!(rt; first && !behind && !again);
    Ok(())
}

#[test]
fn taken_in_order(rt: HostRuntime) -> Result<(), Fail> {
    let mut store = MemoryStore::new(rt.alloc(), 1, 0)?;
    let mut opening = open(&mut store, 2, 1)?;
    let missing = taken(&mut opening, &mut store);
    let fence = taken(&mut opening, &mut store);
    let end = opening.take_front(&mut store);
    assert!(rt;
        missing == (1, Err(StoreFault::Missing(1))) && fence == (2, Ok(0)) && end.is_none()
    );
    Ok(())
}

#[test]
fn widest(rt: HostRuntime) -> Result<(), Fail> {
    let mut store = MemoryStore::new(rt.alloc(), 1, 0)?;
    let mut opening = open(&mut store, 17, 16)?;
    let behind = opening.arrive(&mut store, 16);
    let last = opening.arrive(&mut store, 15);
    let _ = opening.take_front(&mut store);
    let moved = opening.arrive(&mut store, 14);
    let fence = opening.arrive(&mut store, 15);
    opening.terminate();
    let over = opening.arrive(&mut store, 0);
    assert!(rt; last && fence && !behind && !moved && !over);
    Ok(())
}

#[test]
fn asked_once(rt: HostRuntime) -> Result<(), Fail> {
    let memory = MemoryStore::new(rt.alloc(), 1, 0)?;
    let marks = [Mark::Fair, Mark::Lost, Mark::Fair, Mark::Lost];
    let mut store = FaultScript::new(memory, &marks);
    let mut opening = open(&mut store, 1, 4)?;
    let asked = opening.arrive(&mut store, 0);
    let there = store.head(1);
    let kept = taken(&mut opening, &mut store);
    let lost = store.head(1);
    let unavailable = Err(StoreFault::Unavailable(1));
    assert!(rt; asked && there == Ok(0) && kept == (1, unavailable) && lost == unavailable);
    Ok(())
}
