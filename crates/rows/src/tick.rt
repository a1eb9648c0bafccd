//! Ticks: signed numbers of 64 bits, or none.
ghost use Rattle.std.specs.Prelude.{◌≡◌, ◌-◌, ◌^◌, ◌<◌, ◌≤◌, pos, negsuc};
ghost use Rattle.rows.specs.Fields.{TickField};
ghost use Rattle.rows.specs.Grammar.{ReadAs, same};

use crate::decimal::read_decimal;

/// One more than the greatest tick.
const BOUND: u64 = 0x8000_0000_0000_0000;

/// The tick whose digits behind a minus write `n`.
fn negative(n: u64) -> i64
    requires some { 0 < n }
    requires fits { n ≤ 2 ^ 63 }
    ensures { result ≡ negsuc (n - 1) }
{
    // kept: by `try_from` it would be a result that cannot be an error
    -1 - (n - 1) as i64
}

/// The tick whose digits write `n`.
fn positive(n: u64) -> i64
    requires { n < 2 ^ 63 }
    ensures { result ≡ pos n }
{
    n as i64
}

/// Reads a tick and the tab behind it from the front of a text.
///
/// Answers the tick and the text behind the tab, or the text from the damage on.
pub(crate) fn read_tick(text: &[u8]) -> Result<(Option<i64>, &[u8]), &[u8]>
    ensures { ReadAs same TickField text.now result }
{
    match text {
        [b'-', b'\t', rest @ ..] => Ok((None, rest)),
        [b'-', digits @ ..] => {
            let (n, rest) = read_decimal(digits, 1, BOUND)?;
            Ok((Some(negative(n)), rest))
        }
        _ => {
            let (n, rest) = read_decimal(text, 0, BOUND - 1)?;
            Ok((Some(positive(n)), rest))
        }
    }
}
