//! The order of rows, and a row that is filled in.
use crate::lines::{fill, none, stands, take};
use mem_table::{RowBuf, Table};
use std::process::Abort;
use std::test::Fail;
use tables::{ArrivalLog, SortedTable};

/// Keys ascend in byte order, a key before those that go on from it.
fn ascending<T: Table>(rt: &impl Abort, table: &mut T) -> Result<(), Fail> {
    take(rt, table, b"1\tV\t-\t-\tff\t01\n")?;
    take(rt, table, b"2\tV\t-\t-\t0a\t02\n")?;
    take(rt, table, b"3\tV\t-\t-\t\t03\n")?;
    take(rt, table, b"4\tV\t-\t-\t0a00\t04\n")?;
    take(rt, table, b"5\tV\t-\t-\t09\t05\n")?;
    take(rt, table, b"6\tV\t-\t-\ta0\t06\n")?;
    stands(rt, table, 0, 3, b"", b"03");
    stands(rt, table, 1, 5, b"09", b"05");
    stands(rt, table, 2, 2, b"0a", b"02");
    stands(rt, table, 3, 4, b"0a00", b"04");
    stands(rt, table, 4, 6, b"a0", b"06");
    stands(rt, table, 5, 1, b"ff", b"01");
    none(rt, table, 6)?;
    none(rt, table, usize::MAX)
}

#[test]
fn keys(rt: HostRuntime) -> Result<(), Fail> {
    ascending(&rt, &mut SortedTable::new(rt.alloc(), 9, 99)?)?;
    ascending(&rt, &mut ArrivalLog::new(rt.alloc(), 9, 99)?)
}

#[test]
fn filled(rt: HostRuntime) -> Result<(), Fail> {
    let mut row = RowBuf::new();
    assert_eq!(rt; row.lend().estimated_size(), 8);
    fill(&mut row, b"7\tV\t100\t-\t6131\t00ff\n")?;
    assert_eq!(rt; row.lend().estimated_size(), 20);
    assert_eq!(rt; row.lend().key, b"6131".as_slice());
    fill(&mut row, b"8\tT\t-\t-3\t61\t\n")?;
    let entry = row.lend();
    assert_eq!(rt; entry.seq, 8);
    assert_eq!(rt; entry.create_ts, None);
    assert_eq!(rt; entry.expire_ts, Some(-3));
    assert_eq!(rt; entry.key, b"61".as_slice());
    assert_eq!(rt; entry.value.digits(), b"".as_slice());
    Ok(())
}
