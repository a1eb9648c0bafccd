//! Rows over rows of the same key and number, and sizes.
use crate::lines::{holds, none, put, stands, take};
use mem_table::Table;
use std::process::Abort;
use std::test::Fail;
use tables::{ArrivalLog, SortedTable};

/// A row is replaced; the room of the one before is not had back.
fn replaced<T: Table>(rt: &impl Abort, table: &mut T) -> Result<(), Fail> {
    take(rt, table, b"7\tV\t100\t-\t6131\t00ff\n")?;
    holds(rt, table, 1, 20, 4, 16);
    take(rt, table, b"7\tM\t1\t2\t6131\t0102\n")?;
    holds(rt, table, 1, 28, 3, 12);
    stands(rt, table, 0, 7, b"6131", b"0102");
    take(rt, table, b"7\tT\t-\t-\t6131\t\n")?;
    holds(rt, table, 1, 10, 2, 10);
    stands(rt, table, 0, 7, b"6131", b"");
    take(rt, table, b"8\tV\t-\t-\t6131\tff\n")?;
    take(rt, table, b"7\tV\t-\t-\t6131\taa\n")?;
    holds(rt, table, 2, 22, 0, 4);
    assert_eq!(rt; put(table, b"7\tV\t-\t-\t6131\taa\n")?, Some(7));
    holds(rt, table, 2, 22, 0, 4);
    none(rt, table, 2)
}

/// Among several rows only the one of that key and number is replaced.
fn one_of_many<T: Table>(rt: &impl Abort, table: &mut T) -> Result<(), Fail> {
    take(rt, table, b"1\tV\t-\t-\t61\t01\n")?;
    take(rt, table, b"1\tV\t-\t-\t62\t02\n")?;
    take(rt, table, b"1\tV\t-\t-\t63\t03\n")?;
    take(rt, table, b"1\tV\t-\t-\t62\t22\n")?;
    holds(rt, table, 3, 30, 4, 92);
    stands(rt, table, 0, 1, b"61", b"01");
    stands(rt, table, 1, 1, b"62", b"22");
    stands(rt, table, 2, 1, b"63", b"03");
    take(rt, table, b"1\tV\t-\t-\t61\t11\n")?;
    take(rt, table, b"1\tV\t-\t-\t60\t00\n")?;
    stands(rt, table, 0, 1, b"60", b"00");
    stands(rt, table, 1, 1, b"61", b"11");
    holds(rt, table, 4, 40, 2, 88);
    Ok(())
}

/// Each tick that is there adds eight bytes to the size.
fn ticks<T: Table>(rt: &impl Abort, table: &mut T) -> Result<(), Fail> {
    take(rt, table, b"1\tV\t-\t-\t61\t\n")?;
    take(rt, table, b"2\tV\t-5\t-\t61\t\n")?;
    take(rt, table, b"3\tV\t-\t0\t61\t\n")?;
    take(rt, table, b"4\tV\t1\t9223372036854775807\t61\t\n")?;
    holds(rt, table, 4, 9 + 17 + 17 + 25, 0, 0);
    Ok(())
}

#[test]
fn over(rt: HostRuntime) -> Result<(), Fail> {
    replaced(&rt, &mut SortedTable::new(rt.alloc(), 5, 20)?)?;
    replaced(&rt, &mut ArrivalLog::new(rt.alloc(), 5, 20)?)
}

#[test]
fn among(rt: HostRuntime) -> Result<(), Fail> {
    one_of_many(&rt, &mut SortedTable::new(rt.alloc(), 8, 100)?)?;
    one_of_many(&rt, &mut ArrivalLog::new(rt.alloc(), 8, 100)?)
}

#[test]
fn sizes(rt: HostRuntime) -> Result<(), Fail> {
    ticks(&rt, &mut SortedTable::new(rt.alloc(), 4, 4)?)?;
    ticks(&rt, &mut ArrivalLog::new(rt.alloc(), 4, 4)?)
}
