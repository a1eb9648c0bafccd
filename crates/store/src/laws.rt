//! What holds of the calls of every store, by their promises alone.

ghost use Rattle.store.specs.Laws.{OnePut, OneHead, OneRead, GrantedPutsCreate, FilesStay, RefusedPutsLeave};

/// On a steady store each call has one outcome; a granted `put` creates its file, a refused one adds none, and no file ever changes.
pub fn store_stands() -> u8
    ensures one_put { OnePut }
    ensures one_head { OneHead }
    ensures one_read { OneRead }
    ensures granted { GrantedPutsCreate }
    ensures stay { FilesStay }
    ensures refused { RefusedPutsLeave }
{
    0
}
