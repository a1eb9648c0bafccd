//! A text written again from its rows.
ghost use Rattle.std.specs.Prelude.{◌≡◌};
ghost use Rattle.row_text.specs.Rewriting.{Begun, Rewrites};
ghost use Rattle.row_text.specs.declared.again.RewriteFault.TheVariants.{Damaged as WasDamaged, NoMemory as HadNoMemory};

use crate::write::write_row;
use rows::{Damage, Reader};
use std::alloc::AllocError;

/// Why a text was not written again.
#[derive(Clone, Copy)]
pub enum RewriteFault {
    /// The text is not well-formed.
    Damaged(Damage),
    /// There is no memory for it.
    NoMemory,
}

impl From<Damage> for RewriteFault {
    ghost from_gives = { λ e r. r ≡ WasDamaged e };

    fn from(e: Damage) -> RewriteFault {
        RewriteFault::Damaged(e)
    }
}

impl From<AllocError> for RewriteFault {
    ghost from_gives = { λ _ r. r ≡ HadNoMemory };

    fn from(_e: AllocError) -> RewriteFault {
        RewriteFault::NoMemory
    }
}

/// Appends the lines of a text's rows, as far as it gets.
fn append_rows(text: &[u8], out: &mut Vec<u8>) -> Result<(), RewriteFault>
    ensures { Begun text.now out.old.items out.new.items result }
{
    let mut reader = Reader::new(text);
    while let Some(row) = reader.next_row()? {
        write_row(row, out)?;
    }
    Ok(())
}

/// Reads a text and appends the lines of its rows: the text itself. A refusal appends nothing.
pub fn rewrite(text: &[u8], out: &mut Vec<u8>) -> Result<(), RewriteFault>
    ensures { Rewrites text.now out.old.items out.new.items result }
{
    let len = out.len();
    // kept: the length is what a refusal cuts back to; a copy of the text would need memory
    let done = append_rows(text, out);
    if done.is_err() {
        out.truncate(len);
    }
    done
}
