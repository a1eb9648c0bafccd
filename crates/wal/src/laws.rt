//! What holds of the journal's faults and of its probe, by their promises alone.

ghost use Rattle.std.specs.Prelude.{◌≡◌};
ghost use Rattle.wal.specs.Probes.{calls, digits};
ghost use Rattle.wal.specs.Laws.{ToldApart, OneTail, TailsReach, RunsAreFound, NothingIsFound, Compared};

use super::{WalFault, last_seen_wal_id};
use store::Store;

/// A probe has one outcome on a steady store; on any store the tail is the start or a file, without a file behind it, and an
/// unbroken run is found whole, at the cost that its binary digits tell. Faults are told apart by number and values.
pub fn tail_stands() -> u8
    ensures apart { ToldApart }
    ensures one { OneTail }
    ensures reach { TailsReach }
    ensures runs { RunsAreFound }
    ensures nothing { NothingIsFound }
{
    0
}

/// How many times `head` is called for a tail so many ids behind the start.
pub fn head_calls(n: u64) -> u32
    ensures { result ≡ calls (digits n) }
{
    let e = u64::BITS - n.leading_zeros();
    8 * (e / 8 + 1) + e.saturating_sub(1)
}

/// Probes, and says whether the calls that were made are as many as the binary digits of the tail's offset tell.
pub fn compare_calls<S: Store>(store: &mut S, start: u64) -> Result<bool, WalFault>
    ensures { Compared (S.Store.means store.old) (S.Store.means store.new) start result }
{
    let (id, heads) = last_seen_wal_id(store, start)?;
    Ok(heads == head_calls(id - start))
}
