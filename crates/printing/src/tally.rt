//! Counts of calls.
ghost use Rattle.std.specs.Prelude.{◌≡◌, Some};
ghost use Rattle.printing.specs.Tallies.{counted, told_calls};

use std::fmt;

/// How many calls were made, and how many of them were refused.
#[derive(Clone, Copy, Default)]
pub struct Tally {
    pub calls: u64,
    pub refused: u64,
}

impl Tally {
    /// Counts a call.
    pub fn count(&mut self, refused: bool)
        ensures { self.new ≡ counted self.old refused }
    {
        self.calls = self.calls.saturating_add(1);
        if refused {
            self.refused = self.refused.saturating_add(1);
        }
    }
}

impl fmt::Display for Tally {
    ghost output = { λ t. Some (told_calls t) };

    fn fmt<W: fmt::Write>(&self, f: &mut fmt::Formatter<W>) -> fmt::Result {
        write!(f, "{}, of which refused: {}", self.calls, self.refused)
    }
}
