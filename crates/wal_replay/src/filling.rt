//! The rows of a text put into a table.

ghost use Rattle.wal_replay.specs.Texts.{Roomy, Puts};

use crate::survey::more;
use mem_table::Table;
use rows::Reader;

/// Puts the rows above the watermark into a table that has room for them.
pub fn put_rows<T: Table>(table: &mut T, text: &[u8], watermark: u64)
    requires { Roomy watermark (T.Table.means table.old).held text.now }
    ensures { Puts watermark (T.Table.means table.old) (T.Table.means table.new) text.now }
{
    let mut reader = Reader::new(text);
    // kept: nothing is counted by hand, and the reader is asked for one row after the other
    while more(&mut reader) {
        let row = reader.row();
        if watermark < row.seq {
            table.put(row).unwrap();
        }
    }
}
