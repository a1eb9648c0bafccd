//! Calls on the journal.
ghost use Rattle.std.specs.Prelude.{◌<◌, vec_len, vec_capacity};
ghost use Rattle.journal_console.specs.Journal.{AsksArrive, AsksOpen, AsksTail, Granting};

use super::Session;
use journal_answers::account::Part;
use journal_answers::answer::Answer;
use script::reason::Reason;
use stations::{Name, Station, find};
use store_setup::stop::Stop;
use wal::last_seen_wal_id;
use wal_init::{Opening, fence_and_init};

impl Session {
    /// Probes for the last file behind a start.
    pub(super) fn tail(&mut self, start: u64) -> Answer
        ensures { AsksTail self.old start result self.new }
    {
        let found = last_seen_wal_id(&mut self.setup.store, start);
        let answer = Answer::of(found.map(|(id, heads)| Answer::Tail { id, heads }));
        self.note(Part::Journal, answer);
        answer
    }

    /// Opens the journal for a station of a new name, for which there is memory.
    fn grant(&mut self, name: Name, id: u64) -> Answer
        requires { vec_len self.old.stations < vec_capacity self.old.stations }
        ensures { Granting self.old name id result self.new }
    {
        let options = wal_init::Options::from(self.settings);
        match fence_and_init(&mut self.setup.store, self.settings.manifest, id, options) {
            Ok(grant) => {
                let answer = Answer::Opened {
                    fence: grant.fence(),
                    attempts: grant.attempts(),
                };
                let opening = Opening::new(grant);
                self.stations.push_reserved(Station { name, opening });
                answer
            }
            Err(fault) => Answer::Refused(fault.into()),
        }
    }

    /// Opens the journal for a new station.
    pub(super) fn open(&mut self, word: &[u8], id: u64) -> Result<Answer, Stop>
        ensures { AsksOpen self.old word.now id result self.new }
    {
        let name = Name::try_from(word)?;
        if find(self.stations.as_slice(), word).is_some() {
            return Err(Stop::Script(Reason::NameTaken));
        }
        self.stations.reserve(1)?;
        let answer = self.grant(name, id);
        self.note(Part::Journal, answer);
        Ok(answer)
    }

    /// Asks for a file of a station's window.
    pub(super) fn arrive(&mut self, word: &[u8], k: u64) -> Result<Answer, Stop>
        ensures { AsksArrive self.old word.now k result self.new }
    {
        let Some(i) = find(self.stations.as_slice(), word) else {
            return Err(Stop::Script(Reason::UnknownStation));
        };
        let asked = self.stations[i]
            .opening
            .arrive(&mut self.setup.store, k as usize);
        let answer = Answer::Asked(asked);
        self.note(Part::Journal, answer);
        Ok(answer)
    }
}
