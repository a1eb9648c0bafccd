//! Reads bytes from hexadecimal pairs.
ghost use Rattle.std.specs.Prelude.{◌≡◌, ◌<◌, true, MatchBool};
ghost use Rattle.script.specs.Hexadecimal.{Decodes, Paired, digit, is_digit};
ghost use Rattle.script.specs.declared.hex.TextFault.TheVariants.{NoMemory as HadNoMemory};

use std::alloc::AllocError;

/// Why the bytes of a text cannot be had.
#[derive(Clone, Copy)]
pub enum TextFault {
    NotHex,
    NoMemory,
}

impl From<AllocError> for TextFault {
    ghost from_gives = { λ _ r. r ≡ HadNoMemory };

    fn from(_e: AllocError) -> TextFault {
        TextFault::NoMemory
    }
}

fn is_digit(b: u8) -> bool
    ensures { result ≡ is_digit b }
{
    matches!(b, b'0'..=b'9' | b'a'..=b'f')
}

/// The number that a digit stands for.
fn worth(b: u8) -> u8
    requires { is_digit b ≡ true }
    ensures small { result < 16 }
    ensures same { digit result ≡ b }
{
    if b <= b'9' { b - b'0' } else { b - b'a' + 10 }
}

fn is_paired(digits: &[u8]) -> bool
    ensures { MatchBool result (Paired digits.now) (Paired digits.now → ⊥) }
{
    digits.len() % 2 == 0 && digits.iter().all(|b| is_digit(*b))
}

/// Puts the bytes that hexadecimal digits stand for into `bytes`, in place of what it held.
pub fn decode(digits: &[u8], bytes: &mut Vec<u8>) -> Result<(), TextFault>
    ensures { Decodes digits.now result bytes.new.items }
{
    bytes.clear();
    if !is_paired(digits) {
        return Err(TextFault::NotHex);
    }
    bytes.reserve(digits.len() / 2)?;
    for pair in digits.chunks_exact(2) {
        bytes.push_reserved(worth(pair[0]) * 16 + worth(pair[1]));
    }
    Ok(())
}
