//! Hexadecimal digits of a field.
ghost use Rattle.std.specs.Prelude.{◌≡◌, ◌%◌, ◌<◌};
ghost use Rattle.rows.specs.Fields.{HexField};
ghost use Rattle.rows.specs.Grammar.{ReadAs, bytes};
ghost use Rattle.rows.specs.Rows.{hex_digit};

/// Whether a byte is one of 0 to 9 and a to f.
fn is_hex(b: u8) -> bool
    ensures { result ≡ hex_digit b }
{
    matches!(b, b'0'..=b'9' | b'a'..=b'f')
}

/// Reads at most `most` digits, in pairs, and the byte `end` behind them from the front of a text.
///
/// Answers the digits and the text behind the end, or the text from the damage on.
pub(crate) fn read_hex(text: &[u8], most: usize, end: u8) -> Result<(&[u8], &[u8]), &[u8]>
    requires even { most % 2 ≡ 0 }
    requires mark { end < 48 }
    ensures { ReadAs bytes (HexField most end) text.now result }
{
    // No more digits than may stand here are looked at, however many there are.
    let field = &text[..text.len().min(most)];
    let ends = field.iter().position(|b| !is_hex(*b));
    let (digits, rest) = text.split_at(ends.unwrap_or(field.len()));
    match rest {
        [b, rest @ ..] if *b == end && digits.len() % 2 == 0 => Ok((digits, rest)),
        _ => Err(rest),
    }
}
