//! Looking ahead in a text.
ghost use Rattle.std.specs.Prelude.{◌≡◌};
ghost use Rattle.rows.specs.Reading.{LiesAhead, row_under, text_of};

use super::Reader;
use super::calls::damage_at;
use crate::line::read_line;
use crate::types::Damage;

/// Puts a place back when it goes.
struct Ahead<'r> {
    place: &'r mut usize,
    start: usize,
}

impl Drop for Ahead<'_> {
    fn drop(self)
        ensures { self.exit.0.now ≡ self.entry.start }
    {
        *self.place = self.start;
        let Ahead { place: _, start: _ } = self;
    }
}

impl<'a> Reader<'a> {
    /// How many rows lie ahead, and how many bytes their keys and values have. The reader stays where it stands.
    pub fn look_ahead(&mut self) -> Result<(usize, usize), Damage>
        ensures text { self.new.text ≡ self.old.text }
        ensures place { self.new.place ≡ self.old.place }
        ensures row { row_under self.new ≡ row_under self.old }
        ensures answer { LiesAhead (text_of self.old) self.old.place result }
    {
        let text = self.text;
        let start = self.place;
        let guard = Ahead {
            place: &mut self.place,
            start,
        };
        let mut rows = 0;
        let mut bytes = 0;
        // kept: the place moves behind the guard, which puts it back on each way out
        while *guard.place < text.len() {
            match read_line(&text[*guard.place..]) {
                Ok((row, rest)) => {
                    rows += 1;
                    bytes += row.weight();
                    *guard.place = text.len() - rest.len();
                }
                Err(left) => return Err(damage_at(text, left)),
            }
        }
        Ok((rows, bytes))
    }
}
