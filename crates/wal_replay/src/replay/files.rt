//! One file of a replay, taken whole or not at all.

ghost use Rattle.std.specs.Prelude.{◌≡◌, ◌≤◌, length};
ghost use Rattle.causes.specs.Said.{granted};
ghost use Rattle.rows.specs.Rows.{Row};
ghost use Rattle.wal.specs.Said.{fault as wal-fault};
ghost use Rattle.wal_replay.specs.Said.{said};
ghost use Rattle.wal_replay.specs.Replays.{watermark, raised_to, topped};
ghost use Rattle.wal_replay.specs.Files.{disorder, said_order, RoomChecked, TextTaken, Taken, passed};

use super::{ReplayedMemtable, WalReplayIterator};
use crate::ReplayFault;
use crate::fetch::fetch;
use crate::filling::put_rows;
use crate::survey::{Survey, look_over};
use mem_table::Table;
use store::Store;
use wal::WalFault;

/// Checks that the numbers of a file are above those of the file with rows before it.
fn check_order(id: u64, greatest: Option<u64>, span: Option<(u64, u64)>) -> Result<(), WalFault>
    ensures { said_order result ≡ disorder id greatest span }
{
    if let (Some(greatest), Some((least, _))) = (greatest, span)
        && least <= greatest
    {
        return Err(WalFault::InternalError {
            id,
            least,
            greatest,
        });
    }
    Ok(())
}

/// Checks that a table has the room for so many rows and bytes.
fn check_room<T: Table>(table: &T, id: u64, count: usize, bytes: usize) -> Result<(), ReplayFault>
    ensures { RoomChecked (T.Table.means table.now) id count bytes (said result) }
{
    let (puts, left) = table.room();
    if puts < count || left < bytes {
        return Err(ReplayFault::TableFull(id));
    }
    Ok(())
}

impl WalReplayIterator {
    /// Rows at or below it are skipped.
    fn watermark(&self) -> u64
        ensures { result ≡ watermark self.now }
    {
        let recorded = self.opening.manifest().last_l0_seq;
        self.opening.options().min_seq.unwrap_or(recorded)
    }

    /// Puts the rows of a text above the watermark, all of them or none.
    fn take_text<T: Table>(
        &self,
        table: &mut T,
        id: u64,
        text: &[u8],
    ) -> Result<Survey, ReplayFault>
        ensures { TextTaken id self.now (T.Table.means table.old) (T.Table.means table.new) text.now result }
    {
        let watermark = self.watermark();
        let seen = look_over(text, watermark, self.last.last_tick, self.last.last_seq).map_err(
            |damage| WalFault::DataError {
                file: id,
                line: damage.line,
                place: damage.place,
            },
        )?;
        check_order(id, self.greatest, seen.span)?;
        check_room(table, id, seen.count, seen.bytes)?;
        put_rows(table, text, watermark);
        Ok(seen)
    }

    /// Notes a file that was read.
    fn note(&mut self, id: u64, seen: Survey)
        ensures { self.new ≡ passed self.old id seen }
    {
        self.last = ReplayedMemtable {
            last_tick: seen.last_tick,
            last_seq: seen.last_seq,
            last_wal_id: id,
        };
        if let Some((_, greatest)) = seen.span {
            self.greatest = Some(greatest);
            self.floor = self.floor.max(greatest);
        }
    }

    /// Takes the file at the front; false where the fence was read.
    // kept: no value stands beside the answer, which is false where the fence was read
    pub(super) fn take_file<S: Store, T: Table>(
        &mut self,
        store: &mut S,
        table: &mut T,
        buffer: &mut [u8],
    ) -> Result<bool, ReplayFault>
        requires { 16384 ≤ length buffer.old }
        ensures { Taken (S.Store.means store.old) (S.Store.means store.new) self.old self.new (T.Table.means table.old) (T.Table.means table.new) buffer.old buffer.new result }
    {
        let Some(front) = self.opening.take_front(store) else {
            return Ok(false);
        };
        let len = fetch(store, front, buffer)?;
        let seen = self.take_text(table, front.wal_id, &buffer[0..len])?;
        self.note(front.wal_id, seen);
        Ok(true)
    }
}
