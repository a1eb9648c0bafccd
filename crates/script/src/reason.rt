//! What can be wrong with a script.
ghost use Rattle.std.specs.Prelude.{◌≡◌, Some};
ghost use Rattle.script.specs.Reasons.{complaint, reason};
ghost use Rattle.script.specs.declared.reason.Reason.TheVariants.{Number as IsNumber};

use crate::number::NumberFault;
use std::fmt;

/// Why a line is no call.
#[derive(Clone, Copy)]
pub enum Reason {
    UnknownCommand,
    WrongWords,
    NoText,
    TextNotEnded,
    NotHex,
    UnknownOption,
    UnknownMark,
    TooLate,
    ExtraText,
    UnknownTable,
    NotTick,
    NotName,
    NameTaken,
    UnknownStation,
    Number(NumberFault),
}

/// The line that is no call, by its number from 1, and why.
#[derive(Clone, Copy)]
pub struct ScriptError {
    pub line: u64,
    pub reason: Reason,
}

impl From<NumberFault> for Reason {
    ghost from_gives = { λ f r. r ≡ IsNumber f };

    fn from(fault: NumberFault) -> Reason {
        Reason::Number(fault)
    }
}

impl Reason {
    /// The reason in plain words.
    pub fn words(self) -> &'static str
        ensures { result.now ≡ reason self }
    {
        match self {
            Reason::UnknownCommand => "unknown command",
            Reason::WrongWords => "wrong number of words",
            Reason::NoText => "no text",
            Reason::TextNotEnded => "text not ended",
            Reason::NotHex => "not hexadecimal",
            Reason::UnknownOption => "unknown option",
            Reason::UnknownMark => "unknown mark",
            Reason::TooLate => "too late, after the first call",
            Reason::ExtraText => "a text where none belongs",
            Reason::UnknownTable => "unknown table",
            Reason::NotTick => "not a tick",
            Reason::NotName => "not a name",
            Reason::NameTaken => "name taken",
            Reason::UnknownStation => "unknown station",
            Reason::Number(number) => number.words(),
        }
    }
}

impl fmt::Display for Reason {
    ghost output = { λ x. Some (reason x) };

    fn fmt<W: fmt::Write>(&self, f: &mut fmt::Formatter<W>) -> fmt::Result {
        f.write_str(self.words())
    }
}

impl fmt::Display for ScriptError {
    ghost output = { λ e. Some (complaint e) };

    fn fmt<W: fmt::Write>(&self, f: &mut fmt::Formatter<W>) -> fmt::Result {
        let line = self.line;
        let reason = self.reason;
        write!(f, "line {line}: {reason}")
    }
}
