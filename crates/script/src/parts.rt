//! Parts a text at a mark.
ghost use Rattle.std.specs.Prelude.{MatchOption, Some};
ghost use Rattle.script.specs.Parts.{Ends, Free, Parts};

/// Parts a text at its first mark, if it has one.
pub fn split_once(text: &[u8], mark: u8) -> Option<(&[u8], &[u8])>
    ensures { MatchOption result (Free mark text.now) (λ p. Parts mark text.now p.0.now (Some p.1.now)) }
{
    let i = text.iter().position(|b| *b == mark)?;
    Some((&text[..i], &text[i + 1..]))
}

/// Parts a text at its last mark, if it has one.
pub fn rsplit_once(text: &[u8], mark: u8) -> Option<(&[u8], &[u8])>
    ensures { MatchOption result (Free mark text.now) (λ p. Ends mark text.now (Some p.0.now) p.1.now) }
{
    let i = text.iter().rposition(|b| *b == mark)?;
    Some((&text[..i], &text[i + 1..]))
}
