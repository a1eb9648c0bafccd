//! A store in memory at its limits.

use std::test::Fail;
use store::{MemoryStore, Store, StoreFault};

#[test]
fn longest_text(rt: HostRuntime) -> Result<(), Fail> {
    let mut store = MemoryStore::new(rt.alloc(), 2, 32768)?;
    let text = [7u8; 16385];
    assert_eq!(rt; store.put(1, &text), Err(StoreFault::TooLong(1)));
    assert_eq!(rt; store.put(1, &text[..16384]), Ok(()));
    assert_eq!(rt; store.head(1), Ok(16384));
    Ok(())
}

#[test]
fn last_place(rt: HostRuntime) -> Result<(), Fail> {
    let mut store = MemoryStore::new(rt.alloc(), 1, 9)?;
    assert_eq!(rt; store.put(3, b""), Ok(()));
    assert_eq!(rt; store.put(4, b""), Err(StoreFault::NoRoom(4)));
    assert_eq!(rt; store.put(3, b"a"), Err(StoreFault::Exists(3)));
    Ok(())
}

#[test]
fn last_byte(rt: HostRuntime) -> Result<(), Fail> {
    let mut store = MemoryStore::new(rt.alloc(), 9, 3)?;
    assert_eq!(rt; store.put(5, b"abcd"), Err(StoreFault::NoRoom(5)));
    assert_eq!(rt; store.put(5, b"abc"), Ok(()));
    assert_eq!(rt; store.put(6, b"d"), Err(StoreFault::NoRoom(6)));
    assert_eq!(rt; store.put(6, b""), Ok(()));
    Ok(())
}

#[test]
fn no_room_at_all(rt: HostRuntime) -> Result<(), Fail> {
    let mut store = MemoryStore::new(rt.alloc(), 0, 0)?;
    assert_eq!(rt; store.put(0, b""), Err(StoreFault::NoRoom(0)));
    assert_eq!(rt; store.head(0), Err(StoreFault::Missing(0)));
    Ok(())
}

#[test]
fn exact_buffer(rt: HostRuntime) -> Result<(), Fail> {
    let mut store = MemoryStore::new(rt.alloc(), 1, 3)?;
    assert_eq!(rt; store.put(u64::MAX, b"abc"), Ok(()));
    let mut short = [1u8; 2];
    assert_eq!(rt; store.read(u64::MAX, &mut short), Err(StoreFault::Short(3)));
    assert_eq!(rt; short, [1, 1]);
    let mut exact = [1u8; 3];
    assert_eq!(rt; store.read(u64::MAX, &mut exact), Ok(3));
    assert_eq!(rt; exact, [97, 98, 99]);
    Ok(())
}
