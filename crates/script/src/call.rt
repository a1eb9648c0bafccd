//! Takes the calls of a script one by one.
ghost use Rattle.std.specs.Prelude.{MatchResult};
ghost use Rattle.script.specs.Calls.{Calls, Shorter, Splits};
ghost use Rattle.script.specs.Texts.{Is, Lacks};

use crate::hex::{TextFault, decode};
use crate::parts::rsplit_once;
use crate::reason::{Reason, ScriptError};
use crate::script::Script;

/// What the last word of a line is.
#[derive(Clone, Copy)]
enum Last<'a> {
    Here,
    Digits(&'a [u8]),
    Word,
}

/// A text that a call is given: lines of the script, or hexadecimal digits.
#[derive(Clone, Copy)]
pub enum Text<'a> {
    Lines(&'a [u8]),
    Hex(&'a [u8]),
}

/// A call: the number of its line, its words but for its text, and its text.
#[derive(Clone, Copy)]
pub struct Call<'a> {
    pub line: u64,
    pub words: &'a [u8],
    pub text: Option<Text<'a>>,
}

impl<'a> Text<'a> {
    /// The bytes that the text is. Those of digits are put into the buffer.
    pub fn bytes<'b>(self, buffer: &'b mut Vec<u8>) -> Result<&'b [u8], TextFault>
    where
        'a: 'b,
        ensures { MatchResult result (λ b. Is self.entry b.now) (λ f. Lacks self.entry f) }
    {
        match self {
            Text::Lines(bytes) => Ok(bytes),
            Text::Hex(digits) => {
                decode(digits, buffer)?;
                Ok(buffer.as_slice())
            }
        }
    }
}

/// A line's words but for its text, and what its last word is.
fn split_text(line: &[u8]) -> (&[u8], Last<'_>)
    ensures { Splits line.now result.0.now result.1 }
{
    let (ahead, last) = rsplit_once(line, b' ').unwrap_or((&[], line));
    if let b"<<" = last {
        return (ahead, Last::Here);
    }
    match last.strip_prefix(b"hex:") {
        Some(digits) => (ahead, Last::Digits(digits)),
        None => (line, Last::Word),
    }
}

impl<'a> Script<'a> {
    /// Takes the next call, and its text.
    pub fn next_call(&mut self) -> Result<Option<Call<'a>>, ScriptError>
        ensures calls { Calls self.old result self.new }
        ensures shorter { Shorter self.old result self.new }
    {
        let Some(found) = self.call_line() else {
            return Ok(None);
        };
        let line = found.number;
        let (words, last) = split_text(found.bytes);
        let text = match last {
            Last::Here => match self.text() {
                Some(text) => Some(Text::Lines(text)),
                None => return Err(ScriptError {
                    line,
                    reason: Reason::TextNotEnded,
                }),
            },
            Last::Digits(digits) => Some(Text::Hex(digits)),
            Last::Word => None,
        };
        Ok(Some(Call { line, words, text }))
    }
}

#[cfg(test)]
mod tests {
    use super::*;

    #[test]
    fn digits_as_bytes(rt: HostRuntime) {
        let mut buffer = Vec::new(rt.alloc());
        assert!(rt; matches!(Text::Hex(b"00ff").bytes(&mut buffer), Ok([0, 255])));
        assert!(rt; matches!(Text::Lines(b"ab").bytes(&mut buffer), Ok(b"ab")));
    }
}
