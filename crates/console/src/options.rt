//! The options of a script and how a line changes them.
ghost use Rattle.std.specs.Prelude.{◌≡◌};
ghost use Rattle.console.specs.Settings.{Changed, Sets, changed, none, with};
ghost use Rattle.script.specs.Words.{listed};

use commands::arguments::as_number;
use script::reason::Reason;
use script::words::Words;

/// The values that later calls use.
#[derive(Clone, Copy)]
pub struct Options {
    pub block_size: u64,
}

/// The options that a line changes.
// kept: one option today, and a line changes none where one of its words is wrong
#[derive(Clone, Copy)]
pub struct Changes {
    pub block_size: Option<u64>,
}

/// One option with its new value.
#[derive(Clone, Copy)]
pub enum Setting {
    BlockSize(u64),
}

/// Reads a word as a setting.
fn setting_of(word: &[u8]) -> Result<Setting, Reason>
    ensures { Sets word.now result }
{
    let Some(value) = word.strip_prefix(b"block_size=") else {
        return Err(Reason::UnknownOption);
    };
    Ok(Setting::BlockSize(as_number(value)?))
}

impl Changes {
    /// The changes with one setting more.
    pub fn with(self, setting: Setting) -> Changes
        ensures { result ≡ with self setting }
    {
        match setting {
            Setting::BlockSize(n) => Changes {
                block_size: Some(n),
            },
        }
    }
}

/// Reads the words of a line as settings.
pub(crate) fn changes_of(words: Words<'_>) -> Result<Changes, Reason>
    ensures { Changed (listed words.entry) none result }
{
    let mut changes = Changes { block_size: None };
    for word in words {
        changes = changes.with(setting_of(word)?);
    }
    Ok(changes)
}

impl Default for Options {
    ghost is_default = { λ o. o ≡ record { block_size = 4096 } };

    /// The options at the beginning of a script.
    fn default() -> Options {
        Options { block_size: 4096 }
    }
}

impl Options {
    /// The options after a change.
    pub fn changed(self, changes: Changes) -> Options
        ensures { result ≡ changed self changes }
    {
        Options {
            block_size: changes.block_size.unwrap_or(self.block_size),
        }
    }
}
