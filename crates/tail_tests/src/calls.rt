//! The calls that a probe really makes.

use crate::probing::{filled, lost_after, powers, probe};
use std::alloc::{AllocError, Global};
use std::test::Fail;
use store::StoreFault;
use wal::WalFault;

/// The answer over n files with so many fair marks before a lost one, and whether the call after the probe is lost.
fn enough(
    heap: Global,
    n: u64,
    calls: usize,
) -> Result<(Result<(u64, u32), WalFault>, bool), AllocError> {
    Ok(probe(filled(heap, n)?, 0, &lost_after(calls)))
}

#[test]
fn no_files(rt: HostRuntime) -> Result<(), Fail> {
    assert_eq!(rt; enough(rt.alloc(), 0, 8)?, (Ok((0, 8)), true));
    assert_eq!(rt; enough(rt.alloc(), 0, 7)?, (Ok((0, 8)), false));
    Ok(())
}

#[test]
fn one_file(rt: HostRuntime) -> Result<(), Fail> {
    assert_eq!(rt; enough(rt.alloc(), 1, 8)?, (Ok((1, 8)), true));
    Ok(())
}

#[test]
fn five_files(rt: HostRuntime) -> Result<(), Fail> {
    assert_eq!(rt; enough(rt.alloc(), 5, 10)?, (Ok((5, 10)), true));
    let refused = Err(WalFault::Store(StoreFault::Unavailable(5)));
    assert_eq!(rt; enough(rt.alloc(), 5, 9)?, (refused, false));
    let refused = Err(WalFault::Store(StoreFault::Unavailable(6)));
    assert_eq!(rt; enough(rt.alloc(), 5, 8)?, (refused, false));
    assert_eq!(rt; enough(rt.alloc(), 5, 7)?, (Ok((5, 10)), false));
    Ok(())
}

#[test]
fn a_second_round(rt: HostRuntime) -> Result<(), Fail> {
    assert_eq!(rt; enough(rt.alloc(), 127, 14)?, (Ok((127, 14)), true));
    assert_eq!(rt; enough(rt.alloc(), 128, 23)?, (Ok((128, 23)), true));
    assert_eq!(rt; enough(rt.alloc(), 255, 23)?, (Ok((255, 23)), true));
    let refused = Err(WalFault::Store(StoreFault::Unavailable(255)));
    assert_eq!(rt; enough(rt.alloc(), 255, 22)?, (refused, false));
    Ok(())
}

#[test]
fn all_probes(rt: HostRuntime) -> Result<(), Fail> {
    let full = probe(powers(rt.alloc(), 48)?, 0, &lost_after(48));
    assert_eq!(rt; full, (Err(WalFault::InvalidDBState(0)), true));
    let refused = Err(WalFault::Store(StoreFault::Unavailable(140737488355328)));
    let cut = probe(powers(rt.alloc(), 48)?, 0, &lost_after(47));
    assert_eq!(rt; cut, (refused, false));
    Ok(())
}
