//! The options of a script and how a line changes them.
ghost use Rattle.std.specs.Prelude.{◌≡◌, ◌≢◌, MatchResult};
ghost use Rattle.commands.specs.Settings.{Assigns, Changed, Sets, ValueIs, defaults, key_name, with};
ghost use Rattle.commands.specs.declared.options.Key.{Key as TheKey};
ghost use Rattle.script.specs.declared.reason.Reason.TheVariants.{UnknownOption};
ghost use Rattle.script.specs.Words.{listed};

use crate::arguments::as_number;
use script::reason::Reason;
use script::words::Words;

/// The values that later calls use.
#[derive(Clone, Copy)]
pub struct Options {
    pub sst_batch_size: u64,
    pub max_wal_bytes_size: u64,
    pub max_memtable_bytes: u64,
    pub block_size: u64,
    pub min_seq: Option<u64>,
}

/// The name of an option.
#[derive(Clone, Copy)]
pub enum Key {
    SstBatchSize,
    MaxWalBytesSize,
    MaxMemtableBytes,
    BlockSize,
    MinSeq,
}

/// One option with its new value, of which only the least number may be none.
// kept: `with` takes any key with any value, and a type that holds fewer would ask more of its callers
#[derive(Clone, Copy)]
pub struct Setting {
    pub key: Key,
    pub value: Option<u64>,
}

impl TryFrom<&[u8]> for Key {
    type Error = Reason;

    ghost try_from_gives = { λ w r. MatchResult r (λ k. w.now ≡ key_name k) (λ e. ((k : TheKey) → w.now ≢ key_name k) × (e ≡ UnknownOption)) };

    fn try_from(name: &[u8]) -> Result<Key, Reason> {
        match name {
            b"sst_batch_size" => Ok(Key::SstBatchSize),
            b"max_wal_bytes_size" => Ok(Key::MaxWalBytesSize),
            b"max_memtable_bytes" => Ok(Key::MaxMemtableBytes),
            b"block_size" => Ok(Key::BlockSize),
            b"min_seq" => Ok(Key::MinSeq),
            _ => Err(Reason::UnknownOption),
        }
    }
}

/// Parts a word into an option's name and its value.
// Each name is tried as a beginning: parting the word first and then naming the option reads each name twice.
fn assignment_of(word: &[u8]) -> Result<(Key, &[u8]), Reason>
    ensures { Assigns word.now result }
{
    if let Some(value) = word.strip_prefix(b"sst_batch_size=") {
        Ok((Key::SstBatchSize, value))
    } else if let Some(value) = word.strip_prefix(b"max_wal_bytes_size=") {
        Ok((Key::MaxWalBytesSize, value))
    } else if let Some(value) = word.strip_prefix(b"max_memtable_bytes=") {
        Ok((Key::MaxMemtableBytes, value))
    } else if let Some(value) = word.strip_prefix(b"block_size=") {
        Ok((Key::BlockSize, value))
    } else if let Some(value) = word.strip_prefix(b"min_seq=") {
        Ok((Key::MinSeq, value))
    } else {
        Err(Reason::UnknownOption)
    }
}

/// The value that a word gives an option.
fn value_of(key: Key, word: &[u8]) -> Result<Option<u64>, Reason>
    ensures { ValueIs key word.now result }
{
    match (key, word) {
        (Key::MinSeq, b"-") => Ok(None),
        _ => Ok(Some(as_number(word)?)),
    }
}

/// Reads a word as a setting.
fn setting_of(word: &[u8]) -> Result<Setting, Reason>
    ensures { Sets word.now result }
{
    let (key, word) = assignment_of(word)?;
    let value = value_of(key, word)?;
    Ok(Setting { key, value })
}

impl Default for Options {
    ghost is_default = { λ o. o ≡ defaults };

    /// The options at the beginning of a script.
    fn default() -> Options {
        Options {
            sst_batch_size: 4,
            max_wal_bytes_size: 65_536,
            max_memtable_bytes: 67_108_864,
            block_size: 4096,
            min_seq: None,
        }
    }
}

impl Options {
    /// The options with one setting more.
    pub fn with(self, setting: Setting) -> Options
        ensures { result ≡ with self setting }
    {
        let value = setting.value;
        match setting.key {
            Key::SstBatchSize => Options {
                sst_batch_size: value.unwrap_or(self.sst_batch_size),
                ..self
            },
            Key::MaxWalBytesSize => Options {
                max_wal_bytes_size: value.unwrap_or(self.max_wal_bytes_size),
                ..self
            },
            Key::MaxMemtableBytes => Options {
                max_memtable_bytes: value.unwrap_or(self.max_memtable_bytes),
                ..self
            },
            Key::BlockSize => Options {
                block_size: value.unwrap_or(self.block_size),
                ..self
            },
            Key::MinSeq => Options {
                min_seq: value,
                ..self
            },
        }
    }

    /// The options that the words of a line change these to.
    pub fn changed(self, words: Words<'_>) -> Result<Options, Reason>
        ensures { Changed (listed words.entry) self result }
    {
        let mut options = self;
        for word in words {
            options = options.with(setting_of(word)?);
        }
        Ok(options)
    }
}
