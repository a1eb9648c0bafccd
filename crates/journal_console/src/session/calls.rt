//! Calls on texts, on tables and on the store.
ghost use Rattle.journal_console.specs.Calls.{AsksHead, AsksLoad, AsksPut, AsksRead, Tests};
ghost use Rattle.journal_console.specs.Sessions.{Noted};

use super::Session;
use journal_answers::account::Part;
use journal_answers::answer::Answer;
use script::call::Text;
use setups::loads::load_fresh;
use store::Store;
use store_setup::stop::Stop;

impl Session {
    /// Takes an answer into the account.
    pub(super) fn note(&mut self, part: Part, answer: Answer)
        ensures { Noted self.old part answer self.new }
    {
        self.setup.begun = true;
        self.account.note(part, answer);
    }

    /// Checks a text.
    pub(super) fn check(&mut self, text: Text<'_>) -> Result<Answer, Stop>
        ensures { Tests self.old text.entry result self.new }
    {
        let size = self.settings.options.block_size;
        let bytes = text.bytes(&mut self.buffer)?;
        let found = row_text::check(bytes, size);
        let answer = Answer::of(found.map(Answer::Checked));
        self.note(Part::Text, answer);
        Ok(answer)
    }

    /// Loads a text into a fresh table.
    pub(super) fn load(&mut self, text: Text<'_>) -> Result<Answer, Stop>
        ensures { AsksLoad self.old text.entry result self.new }
    {
        let bytes = text.bytes(&mut self.buffer)?;
        let loaded = load_fresh(self.heap, self.settings, bytes, &mut self.lines)?;
        let answer = Answer::of(loaded.map(Answer::Loaded));
        self.note(Part::Table, answer);
        Ok(answer)
    }

    /// Puts a file.
    pub(super) fn put(&mut self, id: u64, text: Text<'_>) -> Result<Answer, Stop>
        ensures { AsksPut self.old id text.entry result self.new }
    {
        let bytes = text.bytes(&mut self.buffer)?;
        let done = self.setup.store.put(id, bytes);
        let answer = Answer::of(done.map(|()| Answer::Done));
        self.note(Part::Store, answer);
        Ok(answer)
    }

    /// Asks for a file's length.
    pub(super) fn head(&mut self, id: u64) -> Answer
        ensures { AsksHead self.old id result self.new }
    {
        let found = self.setup.store.head(id);
        let answer = Answer::of(found.map(Answer::Length));
        self.note(Part::Store, answer);
        answer
    }

    /// Reads a file to the beginning of the page.
    pub(super) fn read(&mut self, id: u64) -> Answer
        ensures { AsksRead self.old id result self.new }
    {
        let found = self.setup.store.read(id, &mut self.page);
        let answer = Answer::of(found.map(Answer::Text));
        self.note(Part::Store, answer);
        answer
    }
}
