//! The fence of an opening: an empty file at the first id that has none.

ghost use Rattle.std.specs.Prelude.{◌≤◌, IfOk};
ghost use Rattle.wal_init.specs.Fences.{FencePut, Fenced, said_fence};

use super::wal_id::WalId;
use store::{Store, StoreFault};
use wal::WalFault;

/// The most fences that one opening puts.
const MOST_ATTEMPTS: u64 = 4096;

/// Puts a fence at an id, and says whether the id was free.
// kept: the loop goes on from two answers, and each other refusal is an `Err`
fn write_wal_fence<S: Store>(store: &mut S, id: u64) -> Result<bool, StoreFault>
    ensures { FencePut (S.Store.means store.old) (S.Store.means store.new) id result }
{
    match store.put(id, &[]) {
        Ok(()) => Ok(true),
        Err(StoreFault::Exists(_)) => Ok(false),
        Err(fault) => Err(fault),
    }
}

/// Puts a fence at the first free id from one on, and answers that id and how many puts it took.
pub fn write_fence<S: Store>(store: &mut S, start: WalId) -> Result<(WalId, u64), WalFault>
    ensures fenced { Fenced (S.Store.means store.old) (S.Store.means store.new) start.number (said_fence result) }
    ensures behind { IfOk result (λ p. start.number ≤ p.0.number) }
{
    // kept: the id and the attempts leave the loop by a break, which a `for` over the attempts has not
    let mut id = start;
    let mut attempts = 0;
    let fence = loop {
        attempts += 1;
        if write_wal_fence(store, id.number)? {
            break (id, attempts);
        }
        if attempts == MOST_ATTEMPTS {
            return Err(WalFault::Attempts(id.number));
        }
        id = WalId::try_from(id.number + 1)?;
    };
    Ok(fence)
}
