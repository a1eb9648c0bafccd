//! A text looked over, before any of its rows is put.

ghost use Rattle.std.specs.Prelude.{◌≡◌, ◌+◌, ◌^◌, ◌<◌, Option};
ghost use Rattle.rows.specs.Entries.{row_of};
ghost use Rattle.rows.specs.Reading.{text_of, row_under};
ghost use Rattle.rows.specs.Sizes.{weight};
ghost use Rattle.wal_replay.specs.Rows.{raised, widen};
ghost use Rattle.wal_replay.specs.Texts.{Sound, Moves, see, Surveyed};

use rows::{Damage, Reader, RowEntry};

/// What the rows of a text come to.
#[derive(Clone, Copy)]
pub struct Survey {
    /// The least and the greatest number; none where there are no rows.
    pub span: Option<(u64, u64)>,
    /// How many rows are above the watermark.
    pub count: usize,
    /// The bytes of their keys and values.
    pub bytes: usize,
    /// The last tick with these rows.
    pub last_tick: i64,
    /// The last number with these rows.
    pub last_seq: u64,
}

/// Goes on to the next row of a text that is known to be sound.
pub fn more(reader: &mut Reader<'_>) -> bool
    requires { Sound (text_of reader.old) reader.old.place }
    ensures text { reader.new.text ≡ reader.old.text }
    ensures moves { Moves (text_of reader.old) reader.old.place reader.new.place (row_under reader.new) result }
{
    reader.advance().unwrap()
}

/// The least and the greatest number with one more.
fn widened(span: Option<(u64, u64)>, seq: u64) -> Option<(u64, u64)>
    ensures { result ≡ widen span seq }
{
    Some(span.map_or((seq, seq), |(least, greatest)| {
        (least.min(seq), greatest.max(seq))
    }))
}

/// A tick raised by another, where there is one.
fn raised_tick(tick: i64, create_ts: Option<i64>) -> i64
    ensures { result ≡ raised tick create_ts }
{
    create_ts.map_or(tick, |ts| tick.max(ts))
}

impl Survey {
    /// With one row more.
    fn see(self, watermark: u64, row: RowEntry<'_>) -> Survey
        requires { self.count + self.bytes + weight (row_of row) + 1 < 2 ^ 64 }
        ensures { result ≡ see watermark self (row_of row.entry) }
    {
        let span = widened(self.span, row.seq);
        if watermark < row.seq {
            Survey {
                span,
                count: self.count + 1,
                bytes: self.bytes + row.weight(),
                last_tick: raised_tick(self.last_tick, row.create_ts),
                last_seq: self.last_seq.max(row.seq),
            }
        } else {
            Survey { span, ..self }
        }
    }
}

/// Looks a text over, from a last tick and a last number on.
pub fn look_over(
    text: &[u8],
    watermark: u64,
    last_tick: i64,
    last_seq: u64,
) -> Result<Survey, Damage>
    ensures { Surveyed text.now watermark last_tick last_seq result }
{
    let mut reader = Reader::new(text);
    reader.look_ahead()?;
    let mut seen = Survey {
        span: None,
        count: 0,
        bytes: 0,
        last_tick,
        last_seq,
    };
    // kept: nothing is counted by hand, and the reader is asked for one row after the other
    while more(&mut reader) {
        seen = seen.see(watermark, reader.row());
    }
    Ok(seen)
}
