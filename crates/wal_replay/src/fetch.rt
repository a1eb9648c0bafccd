//! A file of the replay read into a buffer.

ghost use Rattle.std.specs.Prelude.{◌≡◌};
ghost use Rattle.wal_replay.specs.Files.{Fetched, met_length, said_length};

use store::{Store, StoreFault};
use wal::WalFault;
use wal_init::Front;

/// The store's answer, where a file that is missing means a journal cut off.
fn found(answer: Result<usize, StoreFault>) -> Result<usize, WalFault>
    ensures { said_length result ≡ met_length answer }
{
    answer.map_err(|fault| match fault {
        StoreFault::Missing(id) => WalFault::WalTruncated(id),
        other => WalFault::from(other),
    })
}

/// Reads a file that was asked for into the buffer's beginning.
pub fn fetch<S: Store>(store: &mut S, asked: Front, buffer: &mut [u8]) -> Result<usize, WalFault>
    ensures { Fetched (S.Store.means store.old) (S.Store.means store.new) asked buffer.old buffer.new result }
{
    found(asked.answer)?;
    found(store.read(asked.wal_id, buffer))
}
