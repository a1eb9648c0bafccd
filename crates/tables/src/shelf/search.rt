//! Finding rows on a shelf.
ghost use Rattle.std.specs.Prelude.{◌≡◌, ◌<◌, length, IfOk, IfErr, slice_get, slice_index_or};
ghost use Rattle.rows.specs.Entries.{row_of};
ghost use Rattle.mem_table.specs.Order.{no_row};
ghost use Rattle.tables.specs.Ranks.{At, Between};
ghost use Rattle.tables.specs.Shelves.{order_of};
ghost use Rattle.tables.specs.Slots.{stands};

use super::Shelf;
use crate::arena::read;
use rows::RowEntry;
use std::cmp::Ordering;

impl Shelf {
    /// The row at a place of the order.
    pub fn row_at(&self, i: usize) -> RowEntry<'_>
        requires { i < length (order_of self.now) }
        ensures { row_of result ≡ slice_index_or (order_of self.now) i no_row }
    {
        let slot = self.slots[usize::from(self.ranks[i])];
        read(self.text.as_slice(), slot)
    }

    /// How the row of a slot stands to a key and number: keys rise, and of one key the greater number comes first.
    fn stand(&self, n: u16, key: &[u8], seq: u64) -> Ordering
        ensures { result ≡ stands self.now.text.items (slice_get self.now.slots.items n) key.now seq }
    {
        let Some(slot) = self.slots.get(usize::from(n)) else {
            return Ordering::Less;
        };
        let start = slot.start;
        let end = start + slot.key_len;
        let own = &self.text[start..end];
        own.cmp(&key).then(seq.cmp(&slot.seq))
    }

    /// Where the row of a key and number stands in the order, or where it would stand.
    pub fn locate(&self, key: &[u8], seq: u64) -> Result<usize, usize>
        ensures there { IfOk result (At (order_of self.now) key.now seq) }
        ensures gap { IfErr result (Between (order_of self.now) key.now seq) }
    {
        // A loop of our own, which ends at an equal row: the library's search goes on to the end.
        let mut low = 0;
        let mut high = self.ranks.len();
        while low < high {
            let middle = low + (high - low) / 2;
            match self.stand(self.ranks[middle], key, seq) {
                Ordering::Equal => return Ok(middle),
                Ordering::Less => low = middle + 1,
                Ordering::Greater => high = middle,
            }
        }
        Err(low)
    }
}
