//! Calls on texts and on the store.
ghost use Rattle.console.specs.Sessions.{AsksHead, AsksPut, AsksRead, Noted, Tests};

use super::Session;
use answers::answer::Answer;
use script::call::Text;
use store::Store;
use store_setup::stop::Stop;

impl Session {
    /// Takes an answer into the account.
    fn note(&mut self, answer: Answer)
        ensures { Noted self.old answer self.new }
    {
        self.setup.begun = true;
        self.account.note(answer);
    }

    /// Checks a text.
    pub(super) fn check(&mut self, text: Text<'_>) -> Result<Answer, Stop>
        ensures { Tests self.old text.entry result self.new }
    {
        let bytes = text.bytes(&mut self.buffer)?;
        let answer = Answer::Check(row_text::check(bytes, self.options.block_size));
        self.note(answer);
        Ok(answer)
    }

    /// Puts a file.
    pub(super) fn put(&mut self, id: u64, text: Text<'_>) -> Result<Answer, Stop>
        ensures { AsksPut self.old id text.entry result self.new }
    {
        let bytes = text.bytes(&mut self.buffer)?;
        let answer = Answer::Put(id, self.setup.store.put(id, bytes));
        self.note(answer);
        Ok(answer)
    }

    /// Asks for a file's length.
    pub(super) fn head(&mut self, id: u64) -> Answer
        ensures { AsksHead self.old id result self.new }
    {
        let answer = Answer::Head(id, self.setup.store.head(id));
        self.note(answer);
        answer
    }

    /// Reads a file to the beginning of the page.
    pub(super) fn read(&mut self, id: u64) -> Answer
        ensures { AsksRead self.old id result self.new }
    {
        let answer = Answer::Read(id, self.setup.store.read(id, &mut self.page));
        self.note(answer);
        answer
    }
}
