//! How large the tables would be that hold some rows.
ghost use Rattle.std.specs.Prelude.{◌≡◌, ◌^◌, ◌<◌};
ghost use Rattle.rows.specs.Sizes.{blocks, compacted_size, encoded_size, wal_size};

use crate::block::BlockSize;
use crate::totals::Totals;

/// How many blocks the rows take.
fn block_count(totals: Totals, block: BlockSize) -> u128
    ensures value { result ≡ blocks totals.rows totals.size block.bytes }
    ensures bound { result < 2 ^ 72 }
{
    let bytes = u128::from(block.bytes);
    (totals.size + 9 * u128::from(totals.rows) + (bytes - 1)) / bytes
}

/// The size of a table that takes so many bytes for each block, and so many at its end.
fn encoded_size(totals: Totals, block: BlockSize, for_block: u8, at_end: u8) -> u128
    ensures { result ≡ encoded_size for_block at_end totals.rows totals.size block.bytes }
{
    if totals.rows == 0 {
        return 0;
    }
    let blocks = block_count(totals, block);
    totals.size + 11 * u128::from(totals.rows) + u128::from(for_block) * blocks + u128::from(at_end)
}

/// The size of the journal table that the rows would make.
pub fn estimate_encoded_size_wal(totals: Totals, block: BlockSize) -> u128
    ensures { result ≡ wal_size totals.rows totals.size block.bytes }
{
    encoded_size(totals, block, 14, 85)
}

/// The size of the compacted table that the rows would make.
pub fn estimate_encoded_size_compacted(totals: Totals, block: BlockSize) -> u128
    ensures { result ≡ compacted_size totals.rows totals.size block.bytes }
{
    encoded_size(totals, block, 24, 137)
}
