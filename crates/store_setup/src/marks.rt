//! The store that a script works on, and the marks that fall on its calls.
ghost use Rattle.std.specs.Prelude.{◌≡◌, IfOk, MatchResult, None, Some};
ghost use Rattle.script.specs.declared.reason.Reason.TheVariants.{UnknownMark};
ghost use Rattle.script.specs.Words.{listed};
ghost use Rattle.store_setup.specs.Marks.{Fresh, MarkOf, Marked};

use crate::stop::Stop;
use script::reason::Reason;
use script::words::Words;
use std::alloc::{AllocError, Global};
use store::{FaultScript, Mark, MemoryStore};

/// A new store with room for so many files and bytes, under these marks.
pub fn fresh(
    heap: Global,
    places: usize,
    bytes: usize,
    marks: &[Mark],
) -> Result<FaultScript<MemoryStore>, AllocError>
    ensures { IfOk result (λ s. Fresh places bytes marks.now s) }
{
    let memory = MemoryStore::new(heap, places, bytes)?;
    Ok(FaultScript::new(memory, marks))
}

/// The mark that a word is.
fn mark_of(word: &[u8]) -> Result<Mark, Reason>
    ensures { MatchResult result (λ m. MarkOf word.now (Some m)) (λ e. MarkOf word.now None × (e ≡ UnknownMark)) }
{
    match word {
        b"fair" => Ok(Mark::Fair),
        b"lost" => Ok(Mark::Lost),
        b"late" => Ok(Mark::Late),
        _ => Err(Reason::UnknownMark),
    }
}

/// The marks that the words of a line are.
pub fn marks_of(heap: Global, words: Words<'_>) -> Result<Vec<Mark>, Stop>
    ensures { Marked (listed words.entry) result }
{
    let mut marks = Vec::new(heap);
    for word in words {
        let mark = mark_of(word)?;
        // No `?` here: the error gives the mark back, and would need a conversion of its own.
        if marks.push(mark).is_err() {
            return Err(Stop::NoMemory);
        }
    }
    Ok(marks)
}
