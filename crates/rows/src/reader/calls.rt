//! What a reader answers.
ghost use Rattle.std.specs.Prelude.{◌≡◌, ◌+◌, ◌-◌, ◌^◌, ◌<◌, ◌≤◌, length, take, IfOk, IfSome};
ghost use Rattle.rows.specs.Entries.{row_of};
ghost use Rattle.rows.specs.Lines.{ends};
ghost use Rattle.rows.specs.Reading.{Advances, ReadsBack, no_row, row_under, text_of, went};

use super::Reader;
use crate::entry::RowEntry;
use crate::line::read_line;
use crate::types::{Damage, ValueDeletable};

/// How many lines end in a text.
fn line_ends(text: &[u8]) -> usize
    ensures value { result ≡ ends text.now }
    ensures bound { result ≤ length text.now }
{
    text.iter().filter(|b| **b == b'\n').count()
}

/// The damage of a text, of which so much is left from the damage on.
pub(super) fn damage_at(text: &[u8], left: &[u8]) -> Damage
    requires within { length left.now ≤ length text.now }
    requires fits { ends (take (length text.now - length left.now) text.now) + 1 < 2 ^ 64 }
    ensures place { result.place ≡ length text.now - length left.now }
    ensures line { result.line ≡ ends (take (length text.now - length left.now) text.now) + 1 }
{
    let place = text.len() - left.len();
    let line = line_ends(&text[0..place]) + 1;
    Damage { line, place }
}

impl<'a> Reader<'a> {
    /// A reader at the beginning of a text, on no row yet.
    pub fn new(text: &'a [u8]) -> Reader<'a>
        ensures text { text_of result ≡ text.now }
        ensures place { result.place ≡ 0 }
        ensures row { row_under result ≡ no_row }
    {
        Reader {
            text,
            place: 0,
            row: RowEntry {
                seq: 0,
                create_ts: None,
                expire_ts: None,
                key: &[],
                value: ValueDeletable::Tombstone,
            },
        }
    }

    /// Goes on to the next row and hands it out. None at the end of the text; damage leaves the reader where it stands.
    pub fn next_row(&mut self) -> Result<Option<RowEntry<'a>>, Damage>
        ensures text { self.new.text ≡ self.old.text }
        ensures answer { Advances (text_of self.old) self.old.place self.new.place (row_under self.old) (row_under self.new) (went result) }
        ensures row { IfOk result (λ next. IfSome next (λ row. row_of row ≡ row_under self.new)) }
        ensures back { ReadsBack (text_of self.old) self.old.place (row_under self.new) (went result) }
    {
        let text = self.text;
        if self.place == text.len() {
            return Ok(None);
        }
        match read_line(&text[self.place..]) {
            Ok((row, rest)) => {
                self.row = row;
                self.place = text.len() - rest.len();
                Ok(Some(row))
            }
            Err(left) => Err(damage_at(text, left)),
        }
    }

    /// Goes on to the next row. False at the end of the text; damage leaves the reader where it stands.
    pub fn advance(&mut self) -> Result<bool, Damage>
        ensures text { self.new.text ≡ self.old.text }
        ensures answer { Advances (text_of self.old) self.old.place self.new.place (row_under self.old) (row_under self.new) result }
        ensures back { ReadsBack (text_of self.old) self.old.place (row_under self.new) result }
    {
        // kept: a public call, as `row` is; next_row hands the row out with the answer
        Ok(self.next_row()?.is_some())
    }

    /// The row that the reader stands on: the last one handed out.
    pub fn row(&self) -> RowEntry<'a>
        ensures { row_of result ≡ row_under self.now }
    {
        self.row
    }
}
