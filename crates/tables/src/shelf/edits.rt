//! Putting rows on a shelf.
ghost use Rattle.std.specs.Prelude.{◌≡◌};
ghost use Rattle.std.specs.Bool.{OnTrue};
ghost use Rattle.rows.specs.Entries.{row_of};
ghost use Rattle.mem_table.specs.Calls.{lacks as lacks_room, Put};
ghost use Rattle.tables.specs.Shelves.{ComesLast, holds, shelf_means};

use super::Shelf;
use crate::arena::store;
use mem_table::TableFault;
use rows::RowEntry;

impl Shelf {
    /// Whether no put is left, or fewer bytes than the row has.
    fn lacks(&self, row: RowEntry<'_>) -> bool
        ensures { result ≡ lacks_room (holds self.now) (row_of row.entry) }
    {
        self.puts < 1 || self.bytes < row.weight()
    }

    /// Puts a row over the one of its key and number, if there is one, or else between others.
    ///
    /// In a log each row has a slot of its own. Else a row takes the slot of the one that it replaces.
    pub fn put(&mut self, row: RowEntry<'_>, log: bool) -> Result<(), TableFault>
        ensures put { Put (shelf_means self.old) (shelf_means self.new) (row_of row.entry) result }
        ensures log { OnTrue log (ComesLast self.old self.new (row_of row.entry) result) }
    {
        let place = self.locate(row.key, row.seq);
        if self.lacks(row) {
            return Err(TableFault::NoRoom(row.seq));
        }
        let gone = place.map_or(0, |i| self.row_at(i).estimated_size());
        let slot = store(&mut self.text, row);
        self.puts -= 1;
        self.bytes -= row.weight();
        self.size = self.size + row.estimated_size() - gone;
        match place {
            Ok(i) if !log => {
                let n = usize::from(self.ranks[i]);
                self.slots[n] = slot;
            }
            Ok(i) => {
                self.ranks[i] = self.slots.len() as u16;
                self.slots.push_reserved(slot);
            }
            Err(i) => {
                let _ = self.ranks.insert(i, self.slots.len() as u16);
                self.slots.push_reserved(slot);
            }
        }
        Ok(())
    }
}
