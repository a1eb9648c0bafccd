//! A journal that is opened: what it was opened with, and the window of the files that are read next.

ghost use Rattle.std.specs.Prelude.{◌≡◌, false};
ghost use Rattle.wal_init.specs.Opening.{opened, ended, fence_of, unasked_at, Arrived, Taken};
ghost use Rattle.wal_init.specs.Windows.{Sound};

use super::grant::Grant;
use super::record::{ManifestRecord, Options};
use super::window::{Front, Window};
use rows::BlockSize;
use std::marker::Model;
use store::Store;

/// An opening whose fence was put, and whose files up to the fence are read in turn.
#[derive(Drop)]
pub struct Opening {
    manifest: ManifestRecord,
    options: Options,
    block: BlockSize,
    window: Window,
}

impl Model for Opening {
    ghost use Rattle.wal_init.specs.Opening.{Meaning};

    ghost Value = { Meaning };

    ghost view = { λ s. record { manifest = s.manifest; options = s.options; block = s.block.bytes; window = s.window } };
}

impl Opening {
    /// The opening of a grant, of whose files none was asked for.
    pub fn new(grant: Grant) -> Opening
        ensures { result ≡ opened grant }
    {
        let Grant {
            manifest,
            options,
            block,
            fence,
            attempts: _,
        } = grant;
        let window = Window::new(
            manifest.replay_after_wal_id + 1,
            fence,
            options.sst_batch_size,
        );
        Opening {
            manifest,
            options,
            block,
            window,
        }
    }

    /// Asks for the file so far behind the front, once, and says whether it asked.
    pub fn arrive<S: Store>(&mut self, store: &mut S, k: usize) -> bool
        ensures arrived { Arrived (S.Store.means store.old) (S.Store.means store.new) self.old self.new k result }
        ensures sound { Sound self.new.window }
        ensures untouched { result ≡ false → store.new ≡ store.old }
    {
        self.window.arrive(store, k)
    }

    /// Takes the file at the front, which is asked for if it was not before, and moves the window on.
    pub fn take_front<S: Store>(&mut self, store: &mut S) -> Option<Front>
        ensures taken { Taken (S.Store.means store.old) (S.Store.means store.new) self.old self.new result }
        ensures sound { Sound self.new.window }
        ensures untouched { unasked_at self.old 0 ≡ false → store.new ≡ store.old }
    {
        self.window.take_front(store)
    }

    /// Leaves no slots, as an end or a fault that was met does.
    pub fn terminate(&mut self)
        ensures { self.new ≡ ended self.old }
    {
        self.window.terminate();
    }

    /// The record that it was opened with.
    pub fn manifest(&self) -> ManifestRecord
        ensures { result ≡ self.now.manifest }
    {
        self.manifest
    }

    /// The options that it was opened with.
    pub fn options(&self) -> Options
        ensures { result ≡ self.now.options }
    {
        self.options
    }

    /// The size of a table's blocks.
    pub fn block_size(&self) -> BlockSize
        ensures { result.bytes ≡ self.now.block }
    {
        self.block
    }

    /// The id of its fence.
    pub fn fence(&self) -> u64
        ensures fence { result ≡ fence_of self.now }
        ensures sound { Sound self.now.window }
    {
        self.window.end()
    }
}
