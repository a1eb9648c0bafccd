//! The answers of calls, as they are printed.
ghost use Rattle.std.specs.Prelude.{◌≡◌, Some, MatchResult};
ghost use Rattle.causes.specs.declared.refusal.Refusal.{Refusal};
ghost use Rattle.journal_answers.specs.declared.answer.Answer.TheVariants.{Refused};
ghost use Rattle.journal_answers.specs.Accounts.{checked_rows, is_refused};
ghost use Rattle.journal_answers.specs.Answers.{answered};

use causes::Refusal;
use loader::Loaded;
use row_text::Checked;
use std::fmt;
use wal_replay::ReplayedMemtable;

/// What a call answers.
// No `Result` of what is found and a `Refusal`: that has no `Display` of its own, and would need a type around it.
#[derive(Clone, Copy)]
pub enum Answer {
    /// The rows of a text, their sizes, and both estimates.
    Checked(Checked),
    /// It was done.
    Done,
    /// The length of a file.
    Length(usize),
    /// The length of a file whose text was read.
    Text(usize),
    /// What a table holds and has left.
    Loaded(Loaded),
    /// The last file, and the calls that were made for it.
    Tail {
        id: u64,
        heads: u32,
    },
    /// The fence, and the puts that it took.
    Opened {
        fence: u64,
        attempts: u64,
    },
    /// Whether a file was asked for.
    Asked(bool),
    /// A table of a replay, with what goes with it.
    Replayed {
        rows: usize,
        size: usize,
        last: ReplayedMemtable,
    },
    /// The end of a replay.
    End,
    Refused(Refusal),
}

impl Answer {
    /// What a call answers: what is found, or the refusal that a fault is.
    pub fn of<E: Into<Refusal>>(found: Result<Answer, E>) -> Answer
        ensures { MatchResult found (λ x. result ≡ x) (λ e. (r : Refusal) × (result ≡ Refused r) × E.converts e r) }
    {
        found.unwrap_or_else(|fault| Answer::Refused(fault.into()))
    }

    /// Whether a call was refused.
    pub(crate) fn is_refused(self) -> bool
        ensures { result ≡ is_refused self }
    {
        matches!(self, Answer::Refused(_))
    }

    /// The rows of a text that was checked.
    pub(crate) fn checked_rows(self) -> u64
        ensures { result ≡ checked_rows self }
    {
        match self {
            Answer::Checked(checked) => checked.rows,
            _ => 0,
        }
    }
}

impl fmt::Display for Answer {
    ghost output = { λ x. Some (answered x) };

    fn fmt<W: fmt::Write>(&self, f: &mut fmt::Formatter<W>) -> fmt::Result {
        match *self {
            Answer::Checked(checked) => write!(f, "{checked}"),
            Answer::Done => write!(f, "ok"),
            Answer::Length(length) | Answer::Text(length) => write!(f, "length {length}"),
            Answer::Loaded(
                Loaded {
                    rows,
                    size,
                    puts,
                    bytes,
                },
            ) => write!(f, "rows {rows} size {size} puts {puts} bytes {bytes}"),
            Answer::Tail { id, heads } => write!(f, "id {id} heads {heads}"),
            Answer::Opened { fence, attempts } => write!(f, "fence {fence} attempts {attempts}"),
            Answer::Asked(true) => write!(f, "asked"),
            Answer::Asked(false) => write!(f, "not asked"),
            Answer::Replayed { rows, size, last } => {
                write!(
                    f,
                    "table rows {rows} size {size} tick {} seq {} wal {}",
                    last.last_tick, last.last_seq, last.last_wal_id,
                )
            }
            Answer::End => write!(f, "end"),
            Answer::Refused(refusal) => write!(f, "refused {refusal}"),
        }
    }
}
