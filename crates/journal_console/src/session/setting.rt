//! Lines that set values for later calls.
ghost use Rattle.script.specs.Words.{listed};
ghost use Rattle.journal_console.specs.Settings.{SetsOptions, SetsRecord, SetsTable};

use super::Session;
use commands::command::TableKind;
use script::words::Words;
use setups::records::record_of;
use store_setup::stop::Stop;

impl Session {
    /// Other options.
    pub(super) fn set_options(&mut self, words: Words<'_>) -> Result<(), Stop>
        ensures { SetsOptions self.old (listed words.entry) result self.new }
    {
        self.settings.options = self.settings.options.changed(words)?;
        Ok(())
    }

    /// Another kind and room of tables.
    pub(super) fn set_table(&mut self, table: TableKind, puts: u64, bytes: u64)
        ensures { SetsTable self.old table puts bytes self.new }
    {
        self.settings.table = table;
        self.settings.puts = puts as usize;
        self.settings.bytes = bytes as usize;
    }

    /// Another record of the manifest.
    pub(super) fn set_record(&mut self, words: Words<'_>) -> Result<(), Stop>
        ensures { SetsRecord self.old (listed words.entry) result self.new }
    {
        self.setup.check_early()?;
        self.settings.manifest = record_of(self.heap, words)?;
        Ok(())
    }
}
