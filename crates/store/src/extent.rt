//! Where a file lies in a text.

/// The file of an id: so many bytes from a start.
#[derive(Clone, Copy)]
pub struct Extent {
    pub id: u64,
    pub start: usize,
    pub len: usize,
}
