//! The kind of a row and its letter.
ghost use Rattle.std.specs.Prelude.{◌≡◌, ◌%◌};
ghost use Rattle.rows.specs.Fields.{KindField};
ghost use Rattle.rows.specs.Grammar.{ReadAs, same};
ghost use Rattle.rows.specs.Lines.{ReadsKind, letter};
ghost use Rattle.rows.specs.Rows.{room};

use crate::types::{Kind, UnknownKind};

impl TryFrom<u8> for Kind {
    type Error = UnknownKind;

    ghost try_from_gives = { ReadsKind };

    fn try_from(letter: u8) -> Result<Kind, UnknownKind> {
        match letter {
            b'V' => Ok(Kind::Value),
            b'M' => Ok(Kind::Merge),
            b'T' => Ok(Kind::Tombstone),
            _ => Err(UnknownKind(letter)),
        }
    }
}

impl From<Kind> for u8 {
    ghost from_gives = { λ kind byte. byte ≡ letter kind };

    fn from(kind: Kind) -> u8 {
        match kind {
            Kind::Value => b'V',
            Kind::Merge => b'M',
            Kind::Tombstone => b'T',
        }
    }
}

/// Reads a kind and the tab behind it from the front of a text.
///
/// Answers the kind and the text behind the tab, or the text from the damage on.
pub(crate) fn read_kind(text: &[u8]) -> Result<(Kind, &[u8]), &[u8]>
    ensures { ReadAs same KindField text.now result }
{
    let [letter, rest @ ..] = text else {
        return Err(text);
    };
    let Ok(kind) = Kind::try_from(*letter) else {
        return Err(text);
    };
    match rest {
        [b'\t', rest @ ..] => Ok((kind, rest)),
        _ => Err(rest),
    }
}

/// How many hexadecimal digits the value of a row of this kind may have.
pub(crate) fn most_digits(kind: Kind) -> usize
    ensures value { result ≡ room kind }
    ensures even { result % 2 ≡ 0 }
{
    match kind {
        Kind::Value | Kind::Merge => 2048,
        Kind::Tombstone => 0,
    }
}
