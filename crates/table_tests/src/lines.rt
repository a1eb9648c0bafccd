//! Rows given as lines, put into tables and read back.
use mem_table::{RowBuf, Table, TableFault};
use rows::Reader;
use std::process::Abort;
use std::test::Fail;

/// Puts the row of a line. Answers the number that a refusal returns.
// Kept as an Option: a table's refusal has no equality, and the tests compare what is answered.
pub fn put<T: Table>(table: &mut T, line: &[u8]) -> Result<Option<u64>, Fail> {
    let mut reader = Reader::new(line);
    let Ok(true) = reader.advance() else {
        return Err(Fail::new("no row in the line"));
    };
    match table.put(reader.row()) {
        Ok(()) => Ok(None),
        Err(TableFault::NoRoom(n)) => Ok(Some(n)),
    }
}

/// Fills in the row of a line.
pub fn fill(row: &mut RowBuf, line: &[u8]) -> Result<(), Fail> {
    let mut reader = Reader::new(line);
    let Ok(true) = reader.advance() else {
        return Err(Fail::new("no row in the line"));
    };
    row.fill(reader.row());
    Ok(())
}

/// Puts the row of a line that must be taken.
pub fn take<T: Table>(rt: &impl Abort, table: &mut T, line: &[u8]) -> Result<(), Fail> {
    assert_eq!(rt; put(table, line)?, None);
    Ok(())
}

/// What a table holds and has left: rows, their size, puts, bytes.
pub fn holds<T: Table>(
    rt: &impl Abort,
    table: &T,
    rows: usize,
    size: usize,
    puts: usize,
    bytes: usize,
) {
    assert_eq!(rt; table.metadata(), (rows, size));
    assert_eq!(rt; table.room(), (puts, bytes));
    assert_eq!(rt; table.is_empty(), rows == 0);
}

/// The row at a place of the order has that number, key and value; asked twice.
pub fn stands<T: Table>(rt: &impl Abort, table: &T, i: usize, seq: u64, key: &[u8], value: &[u8]) {
    let mut row = RowBuf::new();
    for _ in 0..2 {
        assert!(rt; table.nth(i, &mut row));
        let entry = row.lend();
        assert_eq!(rt; entry.seq, seq);
        assert_eq!(rt; entry.key, key);
        assert_eq!(rt; entry.value.digits(), value);
    }
}

/// There is no row at a place of the order, and the buffer is left as it was.
pub fn none<T: Table>(rt: &impl Abort, table: &T, i: usize) -> Result<(), Fail> {
    let mut row = RowBuf::new();
    fill(&mut row, b"9\tM\t-\t5\tab\tcd\n")?;
    assert!(rt; !table.nth(i, &mut row));
    let entry = row.lend();
    assert_eq!(rt; entry.seq, 9);
    assert_eq!(rt; entry.create_ts, None);
    assert_eq!(rt; entry.expire_ts, Some(5));
    assert_eq!(rt; entry.key, b"ab".as_slice());
    assert_eq!(rt; entry.value.digits(), b"cd".as_slice());
    Ok(())
}
