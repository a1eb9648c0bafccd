//! Digits in an array of their own.
ghost use Rattle.std.specs.Prelude.{◌≡◌, ◌≤◌, [], length};

use std::marker::Model;

/// At most `N` digits, at the beginning of an array.
// The kit's ArrayVec blanks what it held before it takes other digits: with it a table was read in half as much time again.
#[derive(Drop)]
pub(crate) struct Digits<const N: usize> {
    cells: [u8; N],
    len: usize,
}

impl<const N: usize> Model for Digits<N> {
    ghost use Rattle.std.specs.Prelude.{◌≡◌, ℕ, ◌≤◌, List, length, take};

    ghost Value = { List ℕ };

    ghost view = { λ d. take d.len d.cells };

    ghost invariant = { λ d. (d.len ≤ N) × (length d.cells ≡ N) };
}

impl<const N: usize> Digits<N> {
    /// No digits.
    pub fn new() -> Digits<N>
        ensures { result ≡ [] }
    {
        Digits {
            cells: [0; N],
            len: 0,
        }
    }

    /// The digits.
    pub fn as_slice(&self) -> &[u8]
        ensures { result.now ≡ self.now }
    {
        &self.cells[..self.len]
    }

    /// Takes other digits over.
    pub fn set(&mut self, digits: &[u8])
        requires { length digits.now ≤ N }
        ensures { self.new ≡ digits.now }
    {
        self.len = digits.len();
        self.cells[..digits.len()].copy_from_slice(digits);
    }
}
