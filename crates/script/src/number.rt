//! Reads a word as a decimal number.
ghost use Rattle.std.specs.Prelude.{◌≡◌, ◌+◌, ◌-◌, ◌*◌, ◌^◌, ◌<◌, ◌≤◌, MatchBool, Some};
ghost use Rattle.std.specs.Option.{SomeIff};
ghost use Rattle.std.specs.Int.{IsInRange};
ghost use Rattle.script.specs.Numerals.{Numeral, Reads, fault};

use std::fmt;

/// Why a word is no number that the script can use.
#[derive(Clone, Copy)]
pub enum NumberFault {
    NotNumber,
    TooLarge,
}

impl NumberFault {
    /// The fault in plain words.
    pub fn words(self) -> &'static str
        ensures { result.now ≡ fault self }
    {
        match self {
            NumberFault::NotNumber => "not a number",
            NumberFault::TooLarge => "number too large",
        }
    }
}

impl fmt::Display for NumberFault {
    ghost output = { λ f. Some (fault f) };

    fn fmt<W: fmt::Write>(&self, f: &mut fmt::Formatter<W>) -> fmt::Result {
        f.write_str(self.words())
    }
}

/// Whether a word is of digits, with no zero in front of others.
fn is_numeral(word: &[u8]) -> bool
    ensures { MatchBool result (Numeral word.now) (Numeral word.now → ⊥) }
{
    match word {
        [] | [b'0', _, ..] => false,
        _ => word.iter().all(|b| b.is_ascii_digit()),
    }
}

/// The number whose digits are those of `n` and then `digit`.
fn appended(n: u64, digit: u8) -> Option<u64>
    requires { IsInRange 48 57 digit }
    ensures { SomeIff result (n * 10 + (digit - 48) < 2 ^ 64) (n * 10 + (digit - 48)) }
{
    n.checked_mul(10)?.checked_add(u64::from(digit - b'0'))
}

/// Reads a word as a decimal number without leading zeros.
pub fn number(word: &[u8]) -> Result<u64, NumberFault>
    ensures { Reads word.now result }
{
    if !is_numeral(word) {
        return Err(NumberFault::NotNumber);
    }
    let mut n = 0;
    for b in word {
        let Some(more) = appended(n, *b) else {
            return Err(NumberFault::TooLarge);
        };
        n = more;
    }
    Ok(n)
}
