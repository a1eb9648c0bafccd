//! Takes a script's lines one by one.
ghost use Rattle.std.specs.Prelude.{◌≡◌, ◌<◌, length, Decides};
ghost use Rattle.std.specs.Option.{option_map};
ghost use Rattle.script.specs.Lines.{Line, Stop, idle};
ghost use Rattle.script.specs.Scripts.{Finds, Gives, Takes};

use super::Script;
use crate::parts::split_once;

/// The line of a call, and its number from 1.
#[derive(Clone, Copy)]
pub(crate) struct CallLine<'a> {
    pub number: u64,
    pub bytes: &'a [u8],
}

/// Whether the line is skipped: empty, or a remark.
fn is_idle(line: &[u8]) -> bool
    ensures { result ≡ idle line.now }
{
    matches!(line, [] | [b'#', ..])
}

/// Whether the line is a lone dot, which ends a text.
fn is_stop(line: &[u8]) -> bool
    ensures { Decides result (Stop line.now) }
{
    matches!(line, b".")
}

/// A text's first line, without its end, and what follows.
fn first_line(text: &[u8]) -> (&[u8], &[u8])
    ensures { 0 < length text.now → Line text.now result.0.now result.1.now }
{
    split_once(text, b'\n').unwrap_or((text, &[]))
}

impl<'a> Script<'a> {
    /// The whole script.
    pub fn new(text: &'a [u8]) -> Script<'a>
        ensures rest { result.rest.now ≡ text.now }
        ensures line { result.line ≡ 0 }
    {
        Script {
            rest: text,
            line: 0,
        }
    }

    /// Takes the next line.
    fn take_line(&mut self) -> Option<&'a [u8]>
        ensures { Takes self.old (option_map (λ x. x.now) result) self.new }
    {
        if self.rest.is_empty() {
            return None;
        }
        let (line, rest) = first_line(self.rest);
        self.line += 1;
        self.rest = rest;
        Some(line)
    }

    /// Takes lines up to the first that is a call's.
    pub(crate) fn call_line(&mut self) -> Option<CallLine<'a>>
        ensures { Finds self.old result self.new }
    {
        while let Some(bytes) = self.take_line() {
            if !is_idle(bytes) {
                return Some(CallLine {
                    number: self.line,
                    bytes,
                });
            }
        }
        None
    }

    /// Takes the lines up to a lone dot, and the dot, and answers the text that they are.
    pub(crate) fn text(&mut self) -> Option<&'a [u8]>
        ensures { Gives self.old (option_map (λ x. x.now) result) self.new }
    {
        let all = self.rest;
        let mut long = 0;
        while let Some(line) = self.take_line() {
            if is_stop(line) {
                return Some(&all[0..long]);
            }
            long = all.len() - self.rest.len();
        }
        None
    }
}
