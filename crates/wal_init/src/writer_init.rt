//! The opening of a journal, up to its grant.

ghost use Rattle.std.specs.Prelude.{◌≡◌, false, ◌==◌};
ghost use Rattle.wal_init.specs.WriterInit.{first_says, Opened};

use super::arguments::Arguments;
use super::fence::write_fence;
use super::grant::Grant;
use super::record::{ManifestRecord, Options};
use store::Store;
use wal::WalFault;

/// Opens a journal: puts a fence behind all its files, and grants the opening that it makes.
pub fn fence_and_init<S: Store>(
    store: &mut S,
    manifest: ManifestRecord,
    id: u64,
    options: Options,
) -> Result<Grant, WalFault>
    ensures opened { Opened (S.Store.means store.old) (S.Store.means store.new) manifest id options result }
    ensures untouched { ((first_says manifest id options).number == 0) ≡ false → store.new ≡ store.old }
{
    let arguments = Arguments::check(manifest, id, options)?;
    let start = arguments.first_id(store)?;
    let (fence, attempts) = write_fence(store, start)?;
    Ok(Grant {
        manifest,
        options,
        block: arguments.block,
        fence: fence.number,
        attempts,
    })
}
