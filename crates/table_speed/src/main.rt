//! How long the two tables take at 65,536 rows.
#![tactic(auto)]

use mem_table::{RowBuf, Table};
use rows::Reader;
use std::time::Instant;
use tables::{ArrivalLog, MOST_BYTES, MOST_PUTS, SortedTable};

/// How many rows a load has.
const ROWS: u32 = 65_536;

/// A text of rows, each with the number and the key that `row` gives it.
fn load<F: Fn(u32) -> (u32, u32)>(rt: &HostRuntime, row: F) -> anyhow::Result<String>
    requires { F.IsAlwaysCallable row }
{
    let mut text = String::new(rt.alloc());
    for n in 0..ROWS {
        let (number, key) = row(n);
        let line = format!(in rt.alloc(); "{number}\tV\t1\t-\t{key:08x}\t00ff00ff\n")?;
        text.push_str(line.as_str())?;
    }
    Ok(text)
}

/// Puts the rows of a text, and says how many were taken.
fn fill<T: Table>(table: &mut T, text: &[u8]) -> u32 {
    let mut reader = Reader::new(text);
    let mut taken = 0u32;
    while let Ok(true) = reader.advance() {
        if table.put(reader.row()).is_ok() {
            taken = taken.wrapping_add(1);
        }
    }
    taken
}

/// Reads every row of a table, and says how many there were, with a sum over their numbers and keys.
fn read<T: Table>(table: &T) -> (usize, u64) {
    let mut row = RowBuf::new();
    let mut sum = 0u64;
    let (count, _) = table.metadata();
    for i in 0..count {
        if table.nth(i, &mut row) {
            let entry = row.lend();
            sum = sum.wrapping_mul(31).wrapping_add(entry.seq);
            for b in entry.key {
                sum = sum.wrapping_add(u64::from(*b));
            }
        }
    }
    (count, sum)
}

/// Fills and reads a table, and prints how long each took.
fn run<T: Table>(
    rt: &HostRuntime,
    name: &str,
    keys: &str,
    table: &mut T,
    text: &[u8],
) -> anyhow::Result<()> {
    let start = Instant::now(rt)?;
    let taken = fill(table, text);
    let filled = start.elapsed(rt)?.as_micros();
    let start = Instant::now(rt)?;
    let (rows, sum) = read(table);
    let seen = start.elapsed(rt)?.as_micros();
    println!(rt; "{name} {keys}: {taken} put, {rows} read, sum {sum}")?;
    eprintln!(rt; "{name} {keys}: put in {filled} us, read in {seen} us")?;
    Ok(())
}

/// Both tables on one load.
fn both<F: Fn(u32) -> (u32, u32)>(rt: &HostRuntime, name: &str, row: F) -> anyhow::Result<()>
    requires { F.IsAlwaysCallable row }
{
    let text = load(rt, row)?;
    let mut table = SortedTable::new(rt.alloc(), MOST_PUTS, MOST_BYTES)?;
    run(rt, "sorted", name, &mut table, text.as_bytes())?;
    let mut table = ArrivalLog::new(rt.alloc(), MOST_PUTS, MOST_BYTES)?;
    run(rt, "log", name, &mut table, text.as_bytes())
}

fn main(rt: HostRuntime) -> anyhow::Result<()> {
    both(&rt, "ascending", |n| (n, n))?;
    both(&rt, "descending", |n| (n, u32::MAX - n))?;
    both(&rt, "scattered", |n| (n, n.wrapping_mul(0x9e37_79b1)))?;
    both(&rt, "replaced", |n| (n % 16, 7))
}
