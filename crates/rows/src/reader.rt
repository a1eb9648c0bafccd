//! A reader of the rows of a text.
ghost use Rattle.std.specs.Prelude.{◌≤◌, length};
ghost use Rattle.rows.specs.Rows.{PartOf, digits_of};

use crate::entry::RowEntry;

mod ahead;
mod calls;

/// Hands out the rows of a text one by one. Nothing is copied, and nothing allocated.
#[derive(Drop)]
pub struct Reader<'a> {
    text: &'a [u8],
    place: usize,
    row: RowEntry<'a>,
    ghost stands: { place ≤ length text.now },
    ghost key_part: { ∥ PartOf text.now row.key.now ∥₁ },
    ghost value_part: { ∥ PartOf text.now (digits_of row.value) ∥₁ },
}
