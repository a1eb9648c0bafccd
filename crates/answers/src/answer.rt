//! The answers of calls, as they are printed.
ghost use Rattle.std.specs.Prelude.{Some};
ghost use Rattle.answers.specs.Answers.{answered, measured, refusal, verdict};

use causes::Refusal;
use row_text::{CheckFault, Checked};
use std::fmt;
use store::StoreFault;

/// The answer of a call, with the call.
// kept beside the journal's: the two programs print other lines
#[derive(Clone, Copy)]
pub enum Answer {
    Check(Result<Checked, CheckFault>),
    Put(u64, Result<(), StoreFault>),
    Head(u64, Result<usize, StoreFault>),
    Read(u64, Result<usize, StoreFault>),
}

// Types around results, since a `Result` has no `Display`. Not one generic type: the two values are printed each in its own way.

/// The answer of `check`.
#[derive(Clone, Copy)]
struct Verdict(Result<Checked, CheckFault>);

impl fmt::Display for Verdict {
    ghost output = { λ x. Some (verdict x.0) };

    fn fmt<W: fmt::Write>(&self, f: &mut fmt::Formatter<W>) -> fmt::Result {
        match self.0 {
            Ok(checked) => write!(f, "{checked}"),
            Err(fault) => write!(f, "refused {}", Refusal::from(fault)),
        }
    }
}

/// The answer of a call that the store refused.
#[derive(Clone, Copy)]
struct Refused(StoreFault);

impl fmt::Display for Refused {
    ghost output = { λ x. Some (refusal x.0) };

    fn fmt<W: fmt::Write>(&self, f: &mut fmt::Formatter<W>) -> fmt::Result {
        write!(f, "refused {}", Refusal::from(self.0))
    }
}

/// The answer of a call that gives a length.
#[derive(Clone, Copy)]
struct Length(Result<usize, StoreFault>);

impl fmt::Display for Length {
    ghost output = { λ x. Some (measured x.0) };

    fn fmt<W: fmt::Write>(&self, f: &mut fmt::Formatter<W>) -> fmt::Result {
        match self.0 {
            Ok(length) => write!(f, "length {length}"),
            Err(fault) => write!(f, "{}", Refused(fault)),
        }
    }
}

impl fmt::Display for Answer {
    ghost output = { λ x. Some (answered x) };

    fn fmt<W: fmt::Write>(&self, f: &mut fmt::Formatter<W>) -> fmt::Result {
        match *self {
            Answer::Check(found) => write!(f, "check -> {}", Verdict(found)),
            Answer::Put(id, Ok(())) => write!(f, "put {id} -> ok"),
            Answer::Put(id, Err(fault)) => write!(f, "put {id} -> {}", Refused(fault)),
            Answer::Head(id, found) => write!(f, "head {id} -> {}", Length(found)),
            Answer::Read(id, found) => write!(f, "read {id} -> {}", Length(found)),
        }
    }
}
