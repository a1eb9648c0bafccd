//! Exact bounds.
use crate::lines::{holds, none, put, stands, take};
use mem_table::Table;
use std::process::Abort;
use std::test::Fail;
use tables::{ArrivalLog, SortedTable};

/// Three rows of 4, 3 and 0 bytes fill room for three puts and seven bytes; one more is refused.
fn exactly_full<T: Table>(rt: &impl Abort, table: &mut T) -> Result<(), Fail> {
    take(rt, table, b"1\tV\t-\t-\t6131\t00ff\n")?;
    take(rt, table, b"2\tM\t-\t-\t62\t0102\n")?;
    holds(rt, table, 2, 23, 1, 0);
    take(rt, table, b"3\tT\t-\t-\t\t\n")?;
    holds(rt, table, 3, 31, 0, 0);
    assert_eq!(rt; put(table, b"4\tT\t-\t-\t\t\n")?, Some(4));
    assert_eq!(rt; put(table, b"1\tV\t-\t-\t6131\t00ff\n")?, Some(1));
    holds(rt, table, 3, 31, 0, 0);
    stands(rt, table, 0, 3, b"", b"");
    stands(rt, table, 1, 1, b"6131", b"00ff");
    stands(rt, table, 2, 2, b"62", b"0102");
    none(rt, table, 3)
}

/// With four bytes left a row of five is refused, and then a row of four is taken.
fn one_byte_more<T: Table>(rt: &impl Abort, table: &mut T) -> Result<(), Fail> {
    assert_eq!(rt;
        put(table, b"18446744073709551615\tV\t-\t-\t6162\t000102\n")?,
        Some(18_446_744_073_709_551_615)
    );
    holds(rt, table, 0, 0, 9, 4);
    take(rt, table, b"1\tV\t-\t-\t6162\t0001\n")?;
    holds(rt, table, 1, 12, 8, 0);
    take(rt, table, b"2\tV\t-\t-\t\t\n")?;
    holds(rt, table, 2, 20, 7, 0);
    Ok(())
}

/// Without puts not even a row of no bytes is taken.
fn no_room<T: Table>(rt: &impl Abort, table: &mut T) -> Result<(), Fail> {
    holds(rt, table, 0, 0, 0, 0);
    assert_eq!(rt; put(table, b"5\tT\t1\t2\t\t\n")?, Some(5));
    holds(rt, table, 0, 0, 0, 0);
    none(rt, table, 0)
}

/// A row of no bytes needs a put and no byte.
fn no_bytes<T: Table>(rt: &impl Abort, table: &mut T) -> Result<(), Fail> {
    assert_eq!(rt; put(table, b"1\tV\t-\t-\t00\t\n")?, Some(1));
    take(rt, table, b"1\tV\t-\t-\t\t\n")?;
    holds(rt, table, 1, 8, 0, 0);
    Ok(())
}

#[test]
fn full(rt: HostRuntime) -> Result<(), Fail> {
    exactly_full(&rt, &mut SortedTable::new(rt.alloc(), 3, 7)?)?;
    exactly_full(&rt, &mut ArrivalLog::new(rt.alloc(), 3, 7)?)
}

#[test]
fn bytes(rt: HostRuntime) -> Result<(), Fail> {
    one_byte_more(&rt, &mut SortedTable::new(rt.alloc(), 9, 4)?)?;
    one_byte_more(&rt, &mut ArrivalLog::new(rt.alloc(), 9, 4)?)
}

#[test]
fn nothing(rt: HostRuntime) -> Result<(), Fail> {
    no_room(&rt, &mut SortedTable::new(rt.alloc(), 0, 0)?)?;
    no_room(&rt, &mut ArrivalLog::new(rt.alloc(), 0, 0)?)?;
    no_bytes(&rt, &mut SortedTable::new(rt.alloc(), 1, 0)?)?;
    no_bytes(&rt, &mut ArrivalLog::new(rt.alloc(), 1, 0)?)
}

#[test]
fn limits(rt: HostRuntime) -> Result<(), Fail> {
    assert_eq!(rt;
        SortedTable::new(rt.alloc(), 65_537, 16_777_217)?.room(),
        (65_536, 16_777_216)
    );
    assert_eq!(rt;
        ArrivalLog::new(rt.alloc(), 65_536, 16_777_216)?.room(),
        (65_536, 16_777_216)
    );
    assert_eq!(rt;
        ArrivalLog::new(rt.alloc(), usize::MAX, 0)?.room(),
        (65_536, 0)
    );
    assert_eq!(rt;
        SortedTable::new(rt.alloc(), 5, 16_777_215)?.room(),
        (5, 16_777_215)
    );
    Ok(())
}

#[test]
fn lent(rt: HostRuntime) -> Result<(), Fail> {
    let mut table = SortedTable::new(rt.alloc(), 3, 7)?;
    let mut loan = &mut table;
    exactly_full(&rt, &mut loan)?;
    holds(&rt, &table, 3, 31, 0, 0);
    Ok(())
}
