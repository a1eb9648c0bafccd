//! What the calls of a script ask for.
ghost use Rattle.console.specs.Commands.{Alters, Asks, Checks, Heads, Makes, Marks, Puts, ReadsFile};
ghost use Rattle.script.specs.Words.{listed, words};

use crate::options::{Changes, changes_of};
use commands::arguments::{one_number, two_numbers};
use script::call::{Call, Text};
use script::reason::Reason;
use script::words::{Words, first_word};

/// A line that the console performs.
// kept beside the crate `commands`: a text where none belongs is told apart in other words here
#[derive(Clone, Copy)]
pub enum Command<'a> {
    Check(Text<'a>),
    Options(Changes),
    Store(u64, u64),
    Script(Words<'a>),
    Put(u64, Text<'a>),
    Head(u64),
    Read(u64),
}

/// `check TEXT`
fn check<'a>(mut behind: Words<'a>, text: Option<Text<'a>>) -> Result<Command<'a>, Reason>
    ensures { Checks (listed behind.entry) text.entry result }
{
    match (text, behind.next()) {
        (None, _) => Err(Reason::NoText),
        (Some(_), Some(_)) => Err(Reason::WrongWords),
        (Some(text), None) => Ok(Command::Check(text)),
    }
}

/// `options KEY=NUMBER..`
fn options<'a>(behind: Words<'a>, text: Option<Text<'a>>) -> Result<Command<'a>, Reason>
    ensures { Alters (listed behind.entry) text.entry result }
{
    if text.is_some() {
        return Err(Reason::UnknownOption);
    }
    Ok(Command::Options(changes_of(behind)?))
}

/// `store PLACES BYTES`
fn store<'a>(behind: Words<'a>, text: Option<Text<'a>>) -> Result<Command<'a>, Reason>
    ensures { Makes (listed behind.entry) text.entry result }
{
    if text.is_some() {
        return Err(Reason::ExtraText);
    }
    let (places, bytes) = two_numbers(behind)?;
    Ok(Command::Store(places, bytes))
}

/// `script MARK..`
fn script<'a>(behind: Words<'a>, text: Option<Text<'a>>) -> Result<Command<'a>, Reason>
    ensures { Marks (listed behind.entry) text.entry result }
{
    if text.is_some() {
        return Err(Reason::ExtraText);
    }
    Ok(Command::Script(behind))
}

/// `put ID TEXT`
fn put<'a>(behind: Words<'a>, text: Option<Text<'a>>) -> Result<Command<'a>, Reason>
    ensures { Puts (listed behind.entry) text.entry result }
{
    let Some(text) = text else {
        return Err(Reason::NoText);
    };
    Ok(Command::Put(one_number(behind)?, text))
}

/// `head ID`
fn head<'a>(behind: Words<'a>, text: Option<Text<'a>>) -> Result<Command<'a>, Reason>
    ensures { Heads (listed behind.entry) text.entry result }
{
    if text.is_some() {
        return Err(Reason::ExtraText);
    }
    Ok(Command::Head(one_number(behind)?))
}

/// `read ID`
fn read<'a>(behind: Words<'a>, text: Option<Text<'a>>) -> Result<Command<'a>, Reason>
    ensures { ReadsFile (listed behind.entry) text.entry result }
{
    if text.is_some() {
        return Err(Reason::ExtraText);
    }
    Ok(Command::Read(one_number(behind)?))
}

/// The command that a call is.
pub fn command_of<'a>(call: Call<'a>) -> Result<Command<'a>, Reason>
    ensures { Asks (words call.entry.words.now) call.entry.text result }
{
    let (word, behind) = first_word(call.words);
    match word {
        b"check" => check(behind, call.text),
        b"options" => options(behind, call.text),
        b"store" => store(behind, call.text),
        b"script" => script(behind, call.text),
        b"put" => put(behind, call.text),
        b"head" => head(behind, call.text),
        b"read" => read(behind, call.text),
        _ => Err(Reason::UnknownCommand),
    }
}
