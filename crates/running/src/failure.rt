//! Why a run ends early.
ghost use Rattle.std.specs.Prelude.{◌≡◌};
ghost use Rattle.running.specs.Failures.{failed};

use script::reason::ScriptError;
use std::alloc::AllocError;
use std::{fmt, io};
use store_setup::stop::Stop;

/// Why a run ends before the end of its script.
#[derive(Drop)]
pub enum Failure {
    Script(ScriptError),
    NoMemory,
    Io(io::Error),
}

impl Failure {
    /// The line of this number was not performed.
    pub fn at_line(line: u64, stop: Stop) -> Failure
        ensures { result ≡ failed line stop }
    {
        match stop {
            Stop::Script(reason) => Failure::Script(ScriptError { line, reason }),
            Stop::NoMemory => Failure::NoMemory,
        }
    }
}

impl From<ScriptError> for Failure {
    fn from(error: ScriptError) -> Failure {
        Failure::Script(error)
    }
}

impl From<AllocError> for Failure {
    fn from(_: AllocError) -> Failure {
        Failure::NoMemory
    }
}

impl From<io::Error> for Failure {
    fn from(error: io::Error) -> Failure {
        match error.kind() {
            io::ErrorKind::OutOfMemory => Failure::NoMemory,
            _ => Failure::Io(error),
        }
    }
}

impl fmt::Display for Failure {
    fn fmt<W: fmt::Write>(&self, f: &mut fmt::Formatter<W>) -> fmt::Result {
        match self {
            Failure::Script(error) => write!(f, "{error}"),
            Failure::NoMemory => write!(f, "no memory"),
            Failure::Io(error) => write!(f, "{error}"),
        }
    }
}
