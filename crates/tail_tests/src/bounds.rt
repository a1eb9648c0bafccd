//! Starts at their limit, gaps, and answers that do not count.

use crate::probing::{filled, lost_after, powers, probe};
use std::test::Fail;
use store::{Mark, MemoryStore, Store, StoreFault};
use wal::{WalFault, compare_calls, head_calls};

#[test]
fn starts(rt: HostRuntime) -> Result<(), Fail> {
    let last = probe(filled(rt.alloc(), 0)?, 4611686018427387904, &lost_after(8));
    assert_eq!(rt; last, (Ok((4611686018427387904, 8)), true));
    let spent = Err(WalFault::IdsSpent(4611686018427387905));
    let above = probe(filled(rt.alloc(), 0)?, 4611686018427387905, &lost_after(0));
    assert_eq!(rt; above, (spent, true));
    Ok(())
}

#[test]
fn behind_the_first_absent(rt: HostRuntime) -> Result<(), Fail> {
    let marks = [
        Mark::Fair,
        Mark::Lost,
        Mark::Lost,
        Mark::Lost,
        Mark::Lost,
        Mark::Late,
        Mark::Late,
        Mark::Lost,
    ];
    assert_eq!(rt;
        probe(filled(rt.alloc(), 0)?, 0, &marks),
        (Ok((0, 8)), false)
    );
    let refused = Err(WalFault::Store(StoreFault::Unavailable(2)));
    assert_eq!(rt; probe(filled(rt.alloc(), 1)?, 0, &marks), (refused, false));
    let refused = Err(WalFault::Store(StoreFault::Unavailable(1)));
    assert_eq!(rt;
        probe(filled(rt.alloc(), 1)?, 0, &lost_after(0)),
        (refused, false)
    );
    Ok(())
}

#[test]
fn gaps(rt: HostRuntime) -> Result<(), Fail> {
    assert_eq!(rt;
        probe(powers(rt.alloc(), 4)?, 0, &lost_after(11)),
        (Ok((8, 11)), true)
    );
    let mut store = powers(rt.alloc(), 4)?;
    let _ = store.put(12, b"");
    assert_eq!(rt; probe(store, 0, &lost_after(11)), (Ok((12, 11)), true));
    Ok(())
}

#[test]
fn calls_agree(rt: HostRuntime) -> Result<(), Fail> {
    let mut store = filled(rt.alloc(), 255)?;
    assert_eq!(rt; compare_calls(&mut store, 0), Ok(true));
    assert_eq!(rt; compare_calls(&mut store, 254), Ok(true));
    assert_eq!(rt; compare_calls(&mut store, 255), Ok(true));
    assert_eq!(rt; head_calls(140737488355327), 94);
    Ok(())
}
