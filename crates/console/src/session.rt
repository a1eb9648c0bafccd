//! Performs the calls of a script.
ghost use Rattle.std.specs.Prelude.{◌≡◌, IfOk};
ghost use Rattle.console.specs.Sessions.{Begins, Does, Performs, closing};

use crate::command::{Command, command_of};
use crate::options::Options;
use answers::account::Account;
use answers::answer::Answer;
use script::call::Call;
use std::alloc::{AllocError, Global};
use store::MOST_BYTES;
use store_setup::setup::StoreSetup;
use store_setup::stop::Stop;

mod calls;
mod output;

/// What the calls of a script work on.
// kept beside the journal's: this console knows fewer calls, and says other things of wrong lines
#[derive(Drop)]
pub struct Session {
    heap: Global,
    options: Options,
    account: Account,
    buffer: Vec<u8>,
    page: [u8; MOST_BYTES],
    setup: StoreSetup,
}

impl Session {
    /// The session before the first call.
    pub fn new(heap: Global) -> Result<Session, AllocError>
        ensures { IfOk result Begins }
    {
        let setup = StoreSetup::new(heap)?;
        Ok(Session {
            heap,
            options: Options::default(),
            account: Account::new(),
            buffer: Vec::new(heap),
            page: [0; MOST_BYTES],
            setup,
        })
    }

    /// The account of the calls so far, and of what the store holds.
    pub fn account(&self) -> Account
        ensures { result ≡ closing self.now }
    {
        let (files, taken) = self.setup.taken();
        self.account.holding(files, taken)
    }

    /// The buffer of `read`: the last file read stands at its beginning.
    pub fn page(&self) -> &[u8]
        ensures { result.now ≡ self.now.page }
    {
        &self.page
    }

    /// Performs a call. Answers what is to be printed, if anything is.
    pub fn perform(&mut self, call: Call<'_>) -> Result<Option<Answer>, Stop>
        ensures { Performs self.old call.entry result self.new }
    {
        let command = command_of(call)?;
        self.obey(command)
    }

    /// Performs a command.
    fn obey(&mut self, command: Command<'_>) -> Result<Option<Answer>, Stop>
        ensures { Does self.old command.entry result self.new }
    {
        match command {
            Command::Options(changes) => {
                self.options = self.options.changed(changes);
                Ok(None)
            }
            Command::Store(places, bytes) => {
                self.setup.set_room(places, bytes)?;
                Ok(None)
            }
            Command::Script(words) => {
                self.setup.set_marks(words)?;
                Ok(None)
            }
            Command::Check(text) => self.check(text).map(Some),
            Command::Put(id, text) => self.put(id, text).map(Some),
            Command::Head(id) => Ok(Some(self.head(id))),
            Command::Read(id) => Ok(Some(self.read(id))),
        }
    }
}
