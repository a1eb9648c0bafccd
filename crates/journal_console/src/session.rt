//! Performs the calls of a script.
ghost use Rattle.std.specs.Prelude.{◌≡◌, IfOk};
ghost use Rattle.journal_console.specs.Calls.{Does, Performs};
ghost use Rattle.journal_console.specs.Sessions.{Begins, closing};

use commands::command::{Command, command_of};
use journal_answers::account::Account;
use journal_answers::answer::Answer;
use script::call::Call;
use setups::settings::Settings;
use stations::Station;
use std::alloc::{AllocError, Global};
use store::MOST_BYTES;
use store_setup::setup::StoreSetup;
use store_setup::stop::Stop;

mod calls;
mod journal;
mod output;
mod setting;

/// What the calls of a script work on.
#[derive(Drop)]
pub struct Session {
    heap: Global,
    settings: Settings,
    account: Account,
    buffer: Vec<u8>,
    page: [u8; MOST_BYTES],
    lines: Vec<u8>,
    setup: StoreSetup,
    stations: Vec<Station>,
}

impl Session {
    /// The session before the first call.
    pub fn new(heap: Global) -> Result<Session, AllocError>
        ensures { IfOk result Begins }
    {
        let setup = StoreSetup::new(heap)?;
        Ok(Session {
            heap,
            settings: Settings::default(),
            account: Account::new(),
            buffer: Vec::new(heap),
            page: [0; MOST_BYTES],
            lines: Vec::new(heap),
            setup,
            stations: Vec::new(heap),
        })
    }

    /// The account of the calls so far, and of what the store holds.
    pub fn account(&self) -> Account
        ensures { result ≡ closing self.now }
    {
        let (files, taken) = self.setup.taken();
        self.account.holding(files, taken)
    }

    /// The buffer of `read`: the last file read stands at its beginning.
    pub fn page(&self) -> &[u8]
        ensures { result.now ≡ self.now.page }
    {
        &self.page
    }

    /// The rows of the last table that was loaded, as lines.
    pub fn lines(&self) -> &Vec<u8>
        ensures { result.now ≡ self.now.lines }
    {
        &self.lines
    }

    /// The stations, in the order in which they opened.
    pub fn stations(&self) -> &Vec<Station>
        ensures { result.now ≡ self.now.stations }
    {
        &self.stations
    }

    /// Performs a call. Answers what is to be printed, if anything is.
    pub fn perform(&mut self, call: Call<'_>) -> Result<Option<Answer>, Stop>
        ensures { Performs self.old call.entry result self.new }
    {
        let command = command_of(call)?;
        self.obey(command)
    }

    /// Performs a command.
    fn obey(&mut self, command: Command<'_>) -> Result<Option<Answer>, Stop>
        ensures { Does self.old command.entry result self.new }
    {
        match command {
            Command::Options(words) => self.set_options(words).map(|()| None),
            Command::Store(places, bytes) => self.setup.set_room(places, bytes).map(|()| None),
            Command::Script(words) => self.setup.set_marks(words).map(|()| None),
            Command::Record(words) => self.set_record(words).map(|()| None),
            Command::Table(kind, puts, bytes) => {
                self.set_table(kind, puts, bytes);
                Ok(None)
            }
            Command::Check(text) => self.check(text).map(Some),
            Command::Put(id, text) => self.put(id, text).map(Some),
            Command::Head(id) => Ok(Some(self.head(id))),
            Command::Read(id) => Ok(Some(self.read(id))),
            Command::Load(text) => self.load(text).map(Some),
            Command::Tail(start) => Ok(Some(self.tail(start))),
            Command::Open(name, id) => self.open(name, id).map(Some),
            Command::Arrive(name, k) => self.arrive(name, k).map(Some),
        }
    }
}
