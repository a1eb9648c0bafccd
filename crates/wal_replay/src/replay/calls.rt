//! The calls of a replay.

ghost use Rattle.std.specs.Prelude.{◌≡◌, ◌≤◌, true, false, [], length, is_some};
ghost use Rattle.mem_table.specs.Meaning.{Listed};
ghost use Rattle.wal_replay.specs.Said.{said};
ghost use Rattle.wal_replay.specs.Replays.{begun, heard, Arrived};
ghost use Rattle.wal_replay.specs.Next.{Reading, Next, Weighed, at_once, closed, closing, told, tells};

use super::{ReplayedMemtable, WalReplayIterator};
use crate::ReplayFault;
use mem_table::Table;
use rows::{Totals, estimate_encoded_size_compacted};
use store::{MOST_BYTES, Store, StoreFault};
use wal::WalFault;
use wal_init::Opening;

/// The length of a buffer into which every file fits.
const BUFFER_SIZE: usize = MOST_BYTES;

impl WalReplayIterator {
    /// The replay of an opening, of which nothing was read.
    pub fn new(opening: Opening) -> WalReplayIterator
        ensures { result ≡ begun opening }
    {
        let manifest = opening.manifest();
        WalReplayIterator {
            opening,
            last: ReplayedMemtable {
                last_tick: manifest.last_l0_clock_tick,
                last_seq: manifest.last_l0_seq,
                last_wal_id: manifest.replay_after_wal_id,
            },
            greatest: None,
            floor: manifest.last_l0_seq,
            terminal_result: None,
            ended: false,
        }
    }

    /// Asks for the file so far behind the front, once, and says whether it asked.
    pub fn arrive<S: Store>(&mut self, store: &mut S, k: usize) -> bool
        ensures arrived { Arrived (S.Store.means store.old) (S.Store.means store.new) self.old self.new k result }
        ensures untouched { result ≡ false → store.new ≡ store.old }
    {
        self.opening.arrive(store, k)
    }

    /// Whether a table has come to the size at which it is handed out.
    fn is_ripe<T: Table>(&self, table: &T) -> bool
        ensures { Weighed self.now (T.Table.means table.now) result }
    {
        let (count, size) = table.metadata();
        if count == 0 {
            return false;
        }
        let totals = Totals::new(count as u64, size as u64);
        let bytes = estimate_encoded_size_compacted(totals, self.opening.block_size());
        bytes >= u128::from(self.opening.options().max_memtable_bytes)
    }

    /// Says what stands, and notes that the end was said.
    fn answer(
        &mut self,
        res: Result<(), ReplayFault>,
    ) -> Result<Option<ReplayedMemtable>, ReplayFault>
        ensures state { self.new ≡ heard self.old (said res) }
        ensures answer { told result ≡ tells (said res) }
    {
        res?;
        self.ended = true;
        Ok(None)
    }

    /// An end or a fault is met: it stands, and a table into which files were read is handed out first.
    fn close(
        &mut self,
        applied_any: bool,
        res: Result<(), ReplayFault>,
    ) -> Result<Option<ReplayedMemtable>, ReplayFault>
        ensures state { self.new ≡ closed applied_any self.old (said res) }
        ensures answer { told result ≡ closing applied_any self.old (said res) }
    {
        self.opening.terminate();
        self.terminal_result = Some(res);
        if applied_any {
            return Ok(Some(self.last));
        }
        self.answer(res)
    }

    /// Reads file by file, until the table is ripe or an end or a fault is met.
    // kept: the store, the table and the buffer are lent for one call each, as `next` is given them, so no struct holds the three
    fn read_on<S: Store, T: Table>(
        &mut self,
        store: &mut S,
        table: &mut T,
        buffer: &mut [u8],
    ) -> Result<Option<ReplayedMemtable>, ReplayFault>
        requires buffer { 16384 ≤ length buffer.old }
        requires table { (Listed (T.Table.means table.old)) × ((T.Table.means table.old).order ≡ []) }
        ensures { Reading (S.Store.means store.old) (S.Store.means store.new) self.old self.new (T.Table.means table.old) (T.Table.means table.new) buffer.old buffer.new result }
    {
        // kept: a flag, since no other value of the loop says whether a file was read
        let mut applied_any = false;
        loop {
            match self.take_file(store, table, buffer) {
                Ok(true) => applied_any = true,
                Ok(false) => return self.close(applied_any, Ok(())),
                Err(fault) => return self.close(applied_any, Err(fault)),
            }
            if self.is_ripe(table) {
                return Ok(Some(self.last));
            }
        }
    }

    /// Reads the next files into a table, and hands it out; none is the end.
    pub fn next<S: Store, T: Table>(
        &mut self,
        store: &mut S,
        table: &mut T,
        buffer: &mut [u8],
    ) -> Result<Option<ReplayedMemtable>, ReplayFault>
        ensures call { Next (S.Store.means store.old) (S.Store.means store.new) self.old self.new (T.Table.means table.old) (T.Table.means table.new) buffer.old buffer.new result }
        ensures untouched { is_some (at_once self.old (T.Table.means table.old) buffer.old) ≡ true → store.new ≡ store.old }
    {
        if buffer.len() < BUFFER_SIZE {
            return Err(ReplayFault::Wal(WalFault::Store(StoreFault::Short(BUFFER_SIZE))));
        }
        let (rows, _) = (*table).metadata();
        if rows > 0 {
            return Err(ReplayFault::TableInUse(rows));
        }
        match self.terminal_result {
            Some(result) => self.answer(result),
            None => self.read_on(store, table, buffer),
        }
    }

    /// The opening that is replayed.
    pub fn opening(&self) -> &Opening
        ensures { result.now ≡ self.now.opening }
    {
        &self.opening
    }

    /// Whether it said the end.
    pub fn has_ended(&self) -> bool
        ensures { result ≡ self.now.ended }
    {
        self.ended
    }

    /// The greatest number read, or the record's.
    pub fn floor(&self) -> u64
        ensures { result ≡ self.now.floor }
    {
        self.floor
    }
}
