//! The words behind a call's first.
ghost use Rattle.commands.specs.Arguments.{Named, NoWords, NumberIs, One, Two};
ghost use Rattle.script.specs.Words.{listed};

use script::number::number;
use script::reason::Reason;
use script::words::Words;

/// The number that a word is.
pub fn as_number(word: &[u8]) -> Result<u64, Reason>
    ensures { NumberIs word.now result }
{
    Ok(number(word)?)
}

/// No word.
pub fn no_words(mut words: Words<'_>) -> Result<(), Reason>
    ensures { NoWords (listed words.entry) result }
{
    match words.next() {
        Some(_) => Err(Reason::WrongWords),
        None => Ok(()),
    }
}

/// One word, a number.
pub fn one_number(mut words: Words<'_>) -> Result<u64, Reason>
    ensures { One (listed words.entry) result }
{
    let (Some(word), None) = (words.next(), words.next()) else {
        return Err(Reason::WrongWords);
    };
    as_number(word)
}

/// Two words, each a number.
pub fn two_numbers(mut words: Words<'_>) -> Result<(u64, u64), Reason>
    ensures { Two (listed words.entry) result }
{
    let (Some(first), Some(second), None) = (words.next(), words.next(), words.next()) else {
        return Err(Reason::WrongWords);
    };
    Ok((as_number(first)?, as_number(second)?))
}

/// A word, and a number behind it.
pub fn name_and_number<'a>(mut words: Words<'a>) -> Result<(&'a [u8], u64), Reason>
    ensures { Named (listed words.entry) result }
{
    let Some(name) = words.next() else {
        return Err(Reason::WrongWords);
    };
    Ok((name, one_number(words)?))
}
