//! A store that is lent is a store.

use super::{Store, StoreFault};

impl<S: Store> Store for &mut S {
    ghost means = { λ s. S.Store.means s.now };

    fn put(&mut self, id: u64, text: &[u8]) -> Result<(), StoreFault> {
        (**self).put(id, text)
    }

    fn head(&mut self, id: u64) -> Result<usize, StoreFault> {
        (**self).head(id)
    }

    fn read(&mut self, id: u64, buffer: &mut [u8]) -> Result<usize, StoreFault> {
        (**self).read(id, buffer)
    }
}
