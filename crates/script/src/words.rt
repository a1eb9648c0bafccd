//! The words of a line, one by one.
ghost use Rattle.std.specs.Prelude.{◌≡◌, ◌∷◌};
ghost use Rattle.std.specs.Iterator.{YieldsFirstRef, item_count};
ghost use Rattle.std.specs.Option.{option_map};
ghost use Rattle.script.specs.Words.{Worded, listed, others, words};

use crate::parts::split_once;

/// The words of a line that are still to come. Single spaces part them.
#[derive(Clone, Copy)]
pub struct Words<'a> {
    line: Option<&'a [u8]>,
}

impl<'a> From<Option<&'a [u8]>> for Words<'a> {
    ghost from_gives = { λ line r. listed r ≡ others (option_map (λ x. x.now) line) };

    fn from(line: Option<&'a [u8]>) -> Words<'a> {
        Words { line }
    }
}

/// The first word of a line, and the words behind it.
pub fn first_word(line: &[u8]) -> (&[u8], Words<'_>)
    ensures first { words line.now ≡ result.0.now ∷ listed result.1 }
    ensures all { Worded line.now }
{
    match split_once(line, b' ') {
        Some((word, rest)) => (word, Words { line: Some(rest) }),
        None => (line, Words { line: None }),
    }
}

impl<'a> Iterator for Words<'a> {
    type Item = &'a [u8];

    ghost next_gives = { YieldsFirstRef listed };

    ghost remaining = { item_count listed };

    fn next(&mut self) -> Option<&'a [u8]> {
        let (word, rest) = first_word(self.line?);
        *self = rest;
        Some(word)
    }
}
