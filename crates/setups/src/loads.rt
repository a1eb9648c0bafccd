//! A text loaded into a fresh table.
ghost use Rattle.std.specs.Prelude.{IfOk};
ghost use Rattle.mem_table.specs.Meaning.{empty};
ghost use Rattle.setups.specs.Loading.{Listing};

use crate::settings::Settings;
use loader::{LoadFault, Loaded, list, load};
use mem_table::Table;
use std::alloc::{AllocError, Global};

/// Loads a text into a table, and writes the rows that it then holds.
fn load_into<T: Table>(
    table: &mut T,
    text: &[u8],
    lines: &mut Vec<u8>,
) -> Result<Result<Loaded, LoadFault>, AllocError>
    ensures { IfOk result (Listing (T.Table.means table.old) text.now lines.new.items) }
{
    lines.clear();
    let loaded = load(text, table);
    if loaded.is_ok() {
        list(table, lines)?;
    }
    Ok(loaded)
}

/// Loads a text into a fresh table of the settings, and writes the rows that it then holds.
pub fn load_fresh(
    heap: Global,
    settings: Settings,
    text: &[u8],
    lines: &mut Vec<u8>,
) -> Result<Result<Loaded, LoadFault>, AllocError>
    ensures { IfOk result (Listing (empty settings.puts settings.bytes) text.now lines.new.items) }
{
    let mut table = settings.fresh_table(heap)?;
    load_into(&mut table, text, lines)
}
