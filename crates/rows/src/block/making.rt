//! Which block sizes there are.
ghost use Rattle.rows.specs.Blocks.{Makes};

use super::BlockSize;

/// A block size that is 0 or above 65,536.
#[derive(Clone, Copy, Debug, PartialEq, Eq)]
pub struct BadBlockSize(pub u64);

impl BlockSize {
    /// The block size of so many bytes.
    // kept: a `TryFrom` would be a second name for it
    pub fn new(bytes: u64) -> Result<BlockSize, BadBlockSize>
        ensures { Makes bytes result }
    {
        match u32::try_from(bytes) {
            Ok(n) if n > 0 && n <= 65_536 => Ok(BlockSize { bytes: n }),
            _ => Err(BadBlockSize(bytes)),
        }
    }
}
