//! Lines at the ends of their ranges, and just beyond.
use row_text::read_text;
use rows::Damage;
use std::process::Abort;
use std::test::Fail;

/// The text has so many rows.
fn whole(rt: &impl Abort, text: &[u8], rows: u64) -> Result<(), Fail> {
    match read_text(text) {
        Ok(totals) => {
            assert_eq!(rt; totals.rows, rows);
            Ok(())
        },
        Err(_) => Err(Fail::new("damaged")),
    }
}

/// The text is damaged there.
fn damaged(rt: &impl Abort, text: &[u8], line: usize, place: usize) -> Result<(), Fail> {
    match read_text(text) {
        Ok(_) => Err(Fail::new("not damaged")),
        Err(damage) => {
            assert_eq!(rt; damage, Damage { line, place });
            Ok(())
        }
    }
}

#[test]
fn numbers(rt: HostRuntime) -> Result<(), Fail> {
    whole(&rt, b"0\tT\t-\t-\t\t\n", 1)?;
    whole(&rt, b"18446744073709551615\tT\t-\t-\t\t\n", 1)?;
    damaged(&rt, b"18446744073709551616\tT\t-\t-\t\t\n", 1, 19)?;
    damaged(&rt, b"184467440737095516150\tT\t-\t-\t\t\n", 1, 20)?;
    damaged(&rt, b"01\tT\t-\t-\t\t\n", 1, 1)?;
    damaged(&rt, b"\tT\t-\t-\t\t\n", 1, 0)?;
    damaged(&rt, b"-1\tT\t-\t-\t\t\n", 1, 0)
}

#[test]
fn ticks(rt: HostRuntime) -> Result<(), Fail> {
    whole(
        &rt,
        b"1\tV\t-9223372036854775808\t9223372036854775807\t\t\n",
        1,
    )?;
    damaged(&rt, b"1\tV\t-9223372036854775809\t-\t\t\n", 1, 23)?;
    damaged(&rt, b"1\tV\t9223372036854775808\t-\t\t\n", 1, 22)?;
    damaged(&rt, b"1\tV\t-0\t-\t\t\n", 1, 5)?;
    damaged(&rt, b"1\tV\t--\t-\t\t\n", 1, 5)?;
    damaged(&rt, b"1\tV\t\t-\t\t\n", 1, 4)?;
    whole(&rt, b"1\tV\t0\t-1\t\t\n", 1)
}

#[test]
fn kinds(rt: HostRuntime) -> Result<(), Fail> {
    whole(&rt, b"1\tV\t-\t-\t\t\n2\tM\t-\t-\t\t\n3\tT\t-\t-\t\t\n", 3)?;
    damaged(&rt, b"1\tX\t-\t-\t61\t62\n", 1, 2)?;
    damaged(&rt, b"1\tv\t-\t-\t61\t62\n", 1, 2)?;
    damaged(&rt, b"1\tVV\t-\t-\t61\t62\n", 1, 3)?;
    damaged(&rt, b"8\tT\t-\t-\t61\t00\n", 1, 11)
}

#[test]
fn digits(rt: HostRuntime) -> Result<(), Fail> {
    whole(&rt, b"1\tV\t-\t-\t09af\tff\n", 1)?;
    damaged(&rt, b"1\tV\t-\t-\t6\t62\n", 1, 9)?;
    damaged(&rt, b"1\tV\t-\t-\t6A\t62\n", 1, 9)?;
    damaged(&rt, b"1\tV\t-\t-\t61\t6g\n", 1, 12)?;
    damaged(&rt, b"1\tV\t-\t-\t61\t62", 1, 13)?;
    damaged(&rt, b"1\tV\t-\t-\t61\t62\r\n", 1, 13)
}

#[test]
fn ends(rt: HostRuntime) -> Result<(), Fail> {
    whole(&rt, b"", 0)?;
    damaged(&rt, b"\n", 1, 0)?;
    damaged(&rt, b"1\tV\t-\t-\t\t\n\n", 2, 10)?;
    damaged(&rt, b"1\tV\t-\t-\t\t\n2", 2, 11)?;
    damaged(&rt, &[0], 1, 0)?;
    damaged(&rt, &[255], 1, 0)
}
