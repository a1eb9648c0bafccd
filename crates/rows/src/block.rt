//! The size of a table's blocks.
ghost use Rattle.std.specs.Prelude.{◌≡◌, ◌<◌, ◌≤◌};

mod making;

pub use making::BadBlockSize;

/// A block size from 1 to 65,536 bytes.
#[derive(Clone, Copy)]
pub struct BlockSize {
    pub(crate) bytes: u32,
    ghost some: { 0 < bytes },
    ghost most: { bytes ≤ 65536 },
}
