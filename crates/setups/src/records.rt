//! The manifest's record, as a line gives it.
ghost use Rattle.std.specs.Prelude.{IfOk};
ghost use Rattle.script.specs.Words.{listed};
ghost use Rattle.setups.specs.Records.{Fields, RecordOf, TickOf};

use commands::arguments::as_number;
use script::reason::Reason;
use script::words::Words;
use std::alloc::{AllocError, Global};
use std::str::from_utf8;
use store_setup::stop::Stop;
use wal_init::ManifestRecord;

/// The tick that a word is: a number of 64 bits with a sign, as it would be printed.
fn tick_of(heap: Global, word: &[u8]) -> Result<Option<i64>, AllocError>
    ensures { IfOk result (TickOf word.now) }
{
    let Ok(text) = from_utf8(word) else {
        return Ok(None);
    };
    let Ok(tick) = i64::from_str_radix(text, 10) else {
        return Ok(None);
    };
    let printed = format!(in heap; "{tick}")?;
    if printed.as_bytes() == word {
        Ok(Some(tick))
    } else {
        Ok(None)
    }
}

/// The record of an id, a number and a tick.
fn fields_of(heap: Global, id: &[u8], seq: &[u8], tick: &[u8]) -> Result<ManifestRecord, Stop>
    ensures { Fields id.now seq.now tick.now result }
{
    let replay_after_wal_id = as_number(id)?;
    let last_l0_seq = as_number(seq)?;
    let last_l0_clock_tick = tick_of(heap, tick)?.ok_or(Reason::NotTick)?;
    Ok(ManifestRecord {
        replay_after_wal_id,
        last_l0_seq,
        last_l0_clock_tick,
    })
}

/// The record that the words of a line are.
pub fn record_of(heap: Global, mut words: Words<'_>) -> Result<ManifestRecord, Stop>
    ensures { RecordOf (listed words.entry) result }
{
    let (Some(id), Some(seq), Some(tick), None) = (
        words.next(),
        words.next(),
        words.next(),
        words.next(),
    ) else {
        return Err(Stop::Script(Reason::WrongWords));
    };
    fields_of(heap, id, seq, tick)
}
