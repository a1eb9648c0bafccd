//! What holds of every table, by the promises of its calls alone.
ghost use Rattle.mem_table.specs.Laws.{ExactRoom, LastStands, OneCount, OnePut};

/// A put has one outcome, rows have one count and size, a row that was put stands, and rows are taken exactly if there is room for all of them.
pub fn table_stands() -> u8
    ensures one_put { OnePut }
    ensures one_count { OneCount }
    ensures last { LastStands }
    ensures room { ExactRoom }
{
    0
}
