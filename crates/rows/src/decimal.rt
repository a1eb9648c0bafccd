//! Decimal numbers of a field.
ghost use Rattle.std.specs.Prelude.{◌+◌, ◌-◌, ◌*◌, ◌<◌, ◌≤◌, true};
ghost use Rattle.std.specs.Option.{SomeIff};
ghost use Rattle.rows.specs.Fields.{Decimal, Follows};
ghost use Rattle.rows.specs.Grammar.{ReadAs, same};

/// The number whose digits are those of `n` and then `digit`, where it may follow and lies in the range.
fn appended(n: u64, first: bool, digit: u8, low: u64, top: u64) -> Option<u64>
    ensures { SomeIff result (Follows low top n first digit) (n * 10 + (digit - 48)) }
{
    if !digit.is_ascii_digit() || (n == 0 && !first) {
        return None;
    }
    let more = n.checked_mul(10)?.checked_add(u64::from(digit - b'0'))?;
    if more < low || more > top {
        None
    } else {
        Some(more)
    }
}

/// Reads a number from `low` to `top` and the tab behind it from the front of a text.
///
/// Answers the number and the text behind the tab, or the text from the damage on.
pub(crate) fn read_decimal(text: &[u8], low: u64, top: u64) -> Result<(u64, &[u8]), &[u8]>
    requires low { low ≤ 1 }
    requires top { 0 < top }
    ensures { ReadAs same (Decimal low top) text.now result }
{
    // kept: the number stops at the first digit that leaves the range, which a chain says at more length
    let mut n = 0;
    for (i, b) in text.iter().enumerate() {
        if *b == b'\t' && i > 0 {
            return Ok((n, &text[i + 1..]));
        }
        let Some(more) = appended(n, i == 0, *b, low, top) else {
            return Err(&text[i..]);
        };
        n = more;
    }
    Err(&[])
}
