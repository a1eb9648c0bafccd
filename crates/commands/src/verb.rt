//! The first words of lines.
ghost use Rattle.std.specs.Prelude.{◌≡◌, MatchResult, None, Some};
ghost use Rattle.commands.specs.Verbs.{VerbOf};
ghost use Rattle.script.specs.declared.reason.Reason.TheVariants.{UnknownCommand};

use script::reason::Reason;

/// What a line does.
#[derive(Clone, Copy)]
pub enum Verb {
    Check,
    Options,
    Store,
    Script,
    Record,
    Table,
    Put,
    Head,
    Read,
    Load,
    Tail,
    Open,
    Arrive,
}

impl TryFrom<&[u8]> for Verb {
    type Error = Reason;

    ghost try_from_gives = { λ w r. MatchResult r (λ v. VerbOf w.now (Some v)) (λ e. VerbOf w.now None × (e ≡ UnknownCommand)) };

    fn try_from(word: &[u8]) -> Result<Verb, Reason> {
        match word {
            b"check" => Ok(Verb::Check),
            b"options" => Ok(Verb::Options),
            b"store" => Ok(Verb::Store),
            b"script" => Ok(Verb::Script),
            b"record" => Ok(Verb::Record),
            b"table" => Ok(Verb::Table),
            b"put" => Ok(Verb::Put),
            b"head" => Ok(Verb::Head),
            b"read" => Ok(Verb::Read),
            b"load" => Ok(Verb::Load),
            b"tail" => Ok(Verb::Tail),
            b"open" => Ok(Verb::Open),
            b"arrive" => Ok(Verb::Arrive),
            _ => Err(Reason::UnknownCommand),
        }
    }
}
