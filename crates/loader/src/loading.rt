//! A text of rows put into a table.
ghost use Rattle.loader.specs.Loads.{Begun, Loads};

use crate::fault::LoadFault;
use mem_table::Table;
use row_text::read_text;
use rows::Reader;

/// What a table holds after a load, and the room that it has left.
#[derive(Clone, Copy)]
pub struct Loaded {
    pub rows: usize,
    pub size: usize,
    pub puts: usize,
    pub bytes: usize,
}

/// Puts the rows of a text in their order, up to damage or a row that finds no room.
fn put_rows<T: Table>(text: &[u8], table: &mut T) -> Result<(), LoadFault>
    ensures { Begun text.now (T.Table.means table.old).held (T.Table.means table.new).held result }
{
    let mut reader = Reader::new(text);
    // Kept as a loop over the reader: it counts nothing, and each row stands under the reader.
    while reader.advance()? {
        table.put(reader.row())?;
    }
    Ok(())
}

/// Reads a whole text, and then puts its rows in their order, up to the first that finds no room.
pub fn load<T: Table>(text: &[u8], table: &mut T) -> Result<Loaded, LoadFault>
    ensures { Loads text.now (T.Table.means table.old) (T.Table.means table.new) result }
{
    read_text(text)?;
    put_rows(text, table)?;
    let (rows, size) = (*table).metadata();
    let (puts, bytes) = (*table).room();
    Ok(Loaded {
        rows,
        size,
        puts,
        bytes,
    })
}
