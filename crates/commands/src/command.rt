//! What the calls of a script ask for.
ghost use Rattle.std.specs.Prelude.{◌≡◌, MatchResult, None, Some};
ghost use Rattle.commands.specs.Arguments.{KindOf};
ghost use Rattle.commands.specs.Commands.{Asks, Plain, Tabled, Texted};
ghost use Rattle.script.specs.declared.reason.Reason.TheVariants.{UnknownTable};
ghost use Rattle.script.specs.Words.{listed, words};

use crate::arguments::{name_and_number, no_words, one_number, two_numbers};
use crate::verb::Verb;
use script::call::{Call, Text};
use script::reason::Reason;
use script::words::{Words, first_word};

/// A kind of table.
#[derive(Clone, Copy)]
pub enum TableKind {
    Sorted,
    Log,
}

impl TryFrom<&[u8]> for TableKind {
    type Error = Reason;

    ghost try_from_gives = { λ w r. MatchResult r (λ k. KindOf w.now (Some k)) (λ e. KindOf w.now None × (e ≡ UnknownTable)) };

    fn try_from(word: &[u8]) -> Result<TableKind, Reason> {
        match word {
            b"sorted" => Ok(TableKind::Sorted),
            b"log" => Ok(TableKind::Log),
            _ => Err(Reason::UnknownTable),
        }
    }
}

/// A line that the console performs.
#[derive(Clone, Copy)]
pub enum Command<'a> {
    Check(Text<'a>),
    Options(Words<'a>),
    Store(u64, u64),
    Script(Words<'a>),
    Record(Words<'a>),
    Table(TableKind, u64, u64),
    Put(u64, Text<'a>),
    Head(u64),
    Read(u64),
    Load(Text<'a>),
    Tail(u64),
    Open(&'a [u8], u64),
    Arrive(&'a [u8], u64),
}

/// What a line with a text asks for.
fn with_text<'a>(verb: Verb, behind: Words<'a>, text: Text<'a>) -> Result<Command<'a>, Reason>
    ensures { Texted verb (listed behind.entry) text.entry result }
{
    match verb {
        Verb::Check => {
            no_words(behind)?;
            Ok(Command::Check(text))
        }
        Verb::Load => {
            no_words(behind)?;
            Ok(Command::Load(text))
        }
        Verb::Put => Ok(Command::Put(one_number(behind)?, text)),
        _ => Err(Reason::ExtraText),
    }
}

/// `table KIND PUTS BYTES`
fn table<'a>(mut behind: Words<'a>) -> Result<Command<'a>, Reason>
    ensures { Tabled (listed behind.entry) result }
{
    let Some(word) = behind.next() else {
        return Err(Reason::WrongWords);
    };
    let kind = TableKind::try_from(word)?;
    let (puts, bytes) = two_numbers(behind)?;
    Ok(Command::Table(kind, puts, bytes))
}

/// What a line without a text asks for.
fn without_text<'a>(verb: Verb, behind: Words<'a>) -> Result<Command<'a>, Reason>
    ensures { Plain verb (listed behind.entry) result }
{
    match verb {
        Verb::Check | Verb::Put | Verb::Load => Err(Reason::NoText),
        Verb::Options => Ok(Command::Options(behind)),
        Verb::Script => Ok(Command::Script(behind)),
        Verb::Record => Ok(Command::Record(behind)),
        Verb::Store => {
            let (places, bytes) = two_numbers(behind)?;
            Ok(Command::Store(places, bytes))
        }
        Verb::Table => table(behind),
        Verb::Head => Ok(Command::Head(one_number(behind)?)),
        Verb::Read => Ok(Command::Read(one_number(behind)?)),
        Verb::Tail => Ok(Command::Tail(one_number(behind)?)),
        Verb::Open => {
            let (name, number) = name_and_number(behind)?;
            Ok(Command::Open(name, number))
        }
        Verb::Arrive => {
            let (name, number) = name_and_number(behind)?;
            Ok(Command::Arrive(name, number))
        }
    }
}

/// The command that a call is.
pub fn command_of<'a>(call: Call<'a>) -> Result<Command<'a>, Reason>
    ensures { Asks (words call.entry.words.now) call.entry.text result }
{
    let (word, behind) = first_word(call.words);
    let verb = Verb::try_from(word)?;
    match call.text {
        Some(text) => with_text(verb, behind, text),
        None => without_text(verb, behind),
    }
}
