//! Names of stations.
ghost use Rattle.std.specs.Prelude.{◌≡◌, ◌≤◌, length};

use script::reason::Reason;

/// The most letters and digits that a name has.
const MOST: usize = 16;

/// A name of one to sixteen letters or digits.
// kept as an array with its length: a name is copied, and an `ArrayVec` cannot be
#[derive(Clone, Copy)]
pub struct Name {
    bytes: [u8; MOST],
    len: usize,
    ghost long: { length bytes ≡ 16 },
    ghost within: { len ≤ 16 },
}

impl TryFrom<&[u8]> for Name {
    ghost use Rattle.std.specs.Prelude.{MatchResult, None, Some};
    ghost use Rattle.script.specs.declared.reason.Reason.TheVariants.{NotName};
    ghost use Rattle.stations.specs.Names.{NameOf};

    type Error = Reason;

    ghost try_from_gives = { λ w r. MatchResult r (λ n. NameOf w.now (Some n)) (λ e. NameOf w.now None × (e ≡ NotName)) };

    /// The name that a word is.
    fn try_from(word: &[u8]) -> Result<Name, Reason> {
        let len = word.len();
        if len == 0 || len > MOST || !word.iter().all(|b| b.is_ascii_alphanumeric()) {
            return Err(Reason::NotName);
        }
        let mut bytes = [0; MOST];
        bytes[..len].copy_from_slice(word);
        Ok(Name { bytes, len })
    }
}

impl Name {
    ghost use Rattle.stations.specs.Names.{spelled};

    /// Its letters and digits.
    pub fn as_bytes(&self) -> &[u8]
        ensures { result.now ≡ spelled self.now }
    {
        &self.bytes[..self.len]
    }
}
