//! The closing account of a script.
ghost use Rattle.std.specs.Prelude.{◌≡◌, Some};
ghost use Rattle.journal_answers.specs.Accounts.{holding, no_account, noted, told};

use crate::answer::Answer;
use printing::tally::Tally;
use std::fmt;

/// What a call is about.
// An enum and no lent tally: the promises of the calls name the part, and the fields of an account are its own.
#[derive(Clone, Copy)]
pub enum Part {
    Text,
    Table,
    Store,
    Journal,
}

/// The calls of a script by what they were about, the rows of the texts that were checked, and what the store holds.
#[derive(Clone, Copy, Default)]
pub struct Account {
    texts: Tally,
    rows: u128,
    tables: Tally,
    store: Tally,
    journal: Tally,
    files: usize,
    bytes: usize,
}

impl Account {
    /// The account before the first call.
    pub fn new() -> Account
        ensures { result ≡ no_account }
    {
        Account::default()
    }

    /// The account with what the store holds.
    pub fn holding(self, files: usize, bytes: usize) -> Account
        ensures { result ≡ holding self files bytes }
    {
        Account {
            files,
            bytes,
            ..self
        }
    }

    /// Counts an answer.
    pub fn note(&mut self, part: Part, answer: Answer)
        ensures { self.new ≡ noted self.old part answer }
    {
        let refused = answer.is_refused();
        match part {
            Part::Text => {
                self.texts.count(refused);
                self.rows = self.rows.saturating_add(u128::from(answer.checked_rows()));
            }
            Part::Table => self.tables.count(refused),
            Part::Store => self.store.count(refused),
            Part::Journal => self.journal.count(refused),
        }
    }
}

impl fmt::Display for Account {
    ghost output = { λ a. Some (told a) };

    fn fmt<W: fmt::Write>(&self, f: &mut fmt::Formatter<W>) -> fmt::Result {
        write!(
            f,
            "account\ntexts checked: {}\nrows in them: {}\ntables loaded: {}\njournal calls: {}\nstore calls: {}\nfiles in the store: {}\nbytes in them: {}",
            self.texts, self.rows, self.tables, self.journal, self.store, self.files, self.bytes,
        )
    }
}
