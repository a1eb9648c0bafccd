//! How many rows there are, and their sizes in all.
ghost use Rattle.std.specs.Prelude.{◌≡◌, ◌^◌, ◌<◌};

/// The number of some rows, and the sum of their sizes.
#[derive(Clone, Copy)]
pub struct Totals {
    pub rows: u64,
    pub size: u128,
    ghost small: { size < 2 ^ 70 },
}

impl Totals {
    /// So many rows of this size in all.
    pub fn new(rows: u64, size: u64) -> Totals
        ensures rows { result.rows ≡ rows }
        ensures size { result.size ≡ size }
    {
        Totals {
            rows,
            size: u128::from(size),
        }
    }
}
