//! The last file behind a start.

ghost use Rattle.std.specs.Prelude.{◌≡◌, ◌+◌, ◌^◌, ◌<◌, ◌≤◌};
ghost use Rattle.wal.specs.Asking.{Asked, Round, Rounds, Halved};
ghost use Rattle.wal.specs.Tails.{Tail};

use super::WalFault;
use store::{Store, StoreFault};

/// The last id that a file may have.
pub const LAST_ID: u64 = 4611686018427387904;
/// How many exponents a round asks for.
const ROUND_SIZE: usize = 8;
/// How many rounds there are: the exponents end below 48.
const ROUNDS: u32 = 6;

/// Whether an id has a file.
// kept: three lines for three meanings, which no combinator says shorter
fn wal_object_exists<S: Store>(store: &mut S, id: u64) -> Result<bool, StoreFault>
    ensures { Asked (S.Store.means store.old) (S.Store.means store.new) id result }
{
    match store.head(id) {
        Ok(_) => Ok(true),
        Err(StoreFault::Missing(_)) => Ok(false),
        Err(fault) => Err(fault),
    }
}

/// The power of two with this exponent.
// A shift, since the library's `pow` multiplies in a loop, and a probe asks for up to 48 powers.
fn power(exp: u32) -> u64
    requires { exp < 48 }
    ensures value { result ≡ 2 ^ exp }
    ensures bound { result < 2 ^ 48 }
{
    1u64 << exp
}

/// Where a probe starts, which is not above the last id.
// The store is passed beside it: if it were a field, each promise would have to say that the start stays.
#[derive(Clone, Copy)]
struct Start {
    id: u64,
    ghost small: { id ≤ 2 ^ 62 },
}

impl Start {
    /// Asks for the ids at eight powers of two behind the start, and keeps each answer.
    fn ask_round<S: Store>(self, store: &mut S, exp: u32) -> [Result<bool, StoreFault>; ROUND_SIZE]
        requires { exp + 8 ≤ 48 }
        ensures { Round (S.Store.means store.old) (S.Store.means store.new) self.id exp result }
    {
        let mut answers = [Ok(false); ROUND_SIZE];
        for (j, answer) in answers.iter_mut().enumerate() {
            let offset = power(exp + j as u32);
            *answer = wal_object_exists(store, self.id + offset);
        }
        answers
    }

    /// The first exponent whose power is absent, and how many calls the rounds made for it.
    fn first_absent<S: Store>(self, store: &mut S) -> Result<(u32, u32), WalFault>
        ensures { Rounds (S.Store.means store.old) (S.Store.means store.new) self.id result }
    {
        let absent = 'rounds: {
            for round in 0..ROUNDS {
                let exp = 8 * round;
                let answers = self.ask_round(store, exp);
                for (j, answer) in answers.iter().enumerate() {
                    if !(*answer)? {
                        break 'rounds (exp + j as u32, exp + 8);
                    }
                }
            }
            return Err(WalFault::InvalidDBState(self.id));
        };
        Ok(absent)
    }

    /// Halves between the last present power and the first absent one: the offset of the last file, and the calls for it.
    // A loop, since no search of std counts its calls or stops where one is refused.
    fn halve<S: Store>(self, store: &mut S, absent: u32) -> Result<(u64, u32), WalFault>
        requires some { 0 < absent }
        requires below { absent < 48 }
        ensures { Halved (S.Store.means store.old) (S.Store.means store.new) self.id absent result }
    {
        let mut left = power(absent - 1) + 1;
        let mut right = power(absent);
        let mut heads = 0;
        while left < right {
            let mid = left + (right - left) / 2;
            heads += 1;
            if wal_object_exists(store, self.id + mid)? {
                left = mid + 1;
            } else {
                right = mid;
            }
        }
        Ok((left - 1, heads))
    }
}

/// The id of the last file behind a start, and how many times `head` was called for it.
pub fn last_seen_wal_id<S: Store>(store: &mut S, start: u64) -> Result<(u64, u32), WalFault>
    ensures { Tail (S.Store.means store.old) (S.Store.means store.new) start result }
{
    if start > LAST_ID {
        return Err(WalFault::IdsSpent(start));
    }
    let from = Start { id: start };
    let (absent, asked) = from.first_absent(store)?;
    if absent == 0 {
        return Ok((start, asked));
    }
    let (offset, halvings) = from.halve(store, absent)?;
    Ok((start + offset, asked + halvings))
}
