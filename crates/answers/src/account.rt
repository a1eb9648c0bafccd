//! The closing account of a script.
ghost use Rattle.std.specs.Prelude.{◌≡◌, Some};
ghost use Rattle.answers.specs.Answers.{holding, no_account, noted, told};

use crate::answer::Answer;
use printing::tally::Tally;
use std::fmt;

/// The texts that were checked, how many rows those in order had, the calls that were made of the store, and what the
/// store holds.
// kept beside the journal's: the two programs close with other accounts
#[derive(Clone, Copy, Default)]
pub struct Account {
    texts: Tally,
    rows: u128,
    store: Tally,
    files: usize,
    bytes: usize,
}

impl Account {
    /// The account before the first call.
    pub fn new() -> Account
        ensures { result ≡ no_account }
    {
        Account::default()
    }

    /// The account with what the store holds.
    pub fn holding(self, files: usize, bytes: usize) -> Account
        ensures { result ≡ holding self files bytes }
    {
        Account {
            files,
            bytes,
            ..self
        }
    }

    /// Counts an answer.
    pub fn note(&mut self, answer: Answer)
        ensures { self.new ≡ noted self.old answer }
    {
        match answer {
            Answer::Check(found) => {
                self.texts.count(found.is_err());
                if let Ok(checked) = found {
                    self.rows = self.rows.saturating_add(u128::from(checked.rows));
                }
            }
            Answer::Put(_, done) => self.store.count(done.is_err()),
            Answer::Head(_, found) | Answer::Read(_, found) => self.store.count(found.is_err()),
        }
    }
}

impl fmt::Display for Account {
    ghost output = { λ a. Some (told a) };

    fn fmt<W: fmt::Write>(&self, f: &mut fmt::Formatter<W>) -> fmt::Result {
        write!(
            f,
            "account\ntexts checked: {}\nrows in them: {}\ntexts refused: {}\nstore calls: {}\nstore calls refused: {}\nfiles in the store: {}\nbytes in them: {}",
            self.texts.calls,
            self.rows,
            self.texts.refused,
            self.store.calls,
            self.store.refused,
            self.files,
            self.bytes,
        )
    }
}
