//! Refusals as they are printed.
ghost use Rattle.std.specs.Prelude.{Some};
ghost use Rattle.causes.specs.Causes.{shown_values, told};

use super::Cause;
use std::fmt;

/// The values that a cause returns.
// An enum and no `ArrayVec`: a refusal is copied, and an `ArrayVec` is not `Copy`.
#[derive(Clone, Copy, PartialEq, Eq, Debug)]
pub enum Values {
    None,
    One(u64),
    Two(u64, u64),
    Three(u64, u64, u64),
}

/// A refusal: its cause, and the values that come with it.
#[derive(Clone, Copy, PartialEq, Eq, Debug)]
pub struct Refusal {
    pub cause: Cause,
    pub values: Values,
}

impl fmt::Display for Values {
    ghost output = { λ v. Some (shown_values v) };

    fn fmt<W: fmt::Write>(&self, f: &mut fmt::Formatter<W>) -> fmt::Result {
        match *self {
            Values::None => write!(f, ""),
            Values::One(a) => write!(f, " {a}"),
            Values::Two(a, b) => write!(f, " {a} {b}"),
            Values::Three(a, b, c) => write!(f, " {a} {b} {c}"),
        }
    }
}

impl fmt::Display for Refusal {
    ghost output = { λ r. Some (told r) };

    fn fmt<W: fmt::Write>(&self, f: &mut fmt::Formatter<W>) -> fmt::Result {
        let number = self.cause.number();
        let name = self.cause.name();
        let values = self.values;
        write!(f, "{number} {name}{values}")
    }
}
