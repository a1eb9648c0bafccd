//! A store of numbered files, each written once: what its calls promise, a store in memory, and a script of faults over any store.
#![tactic(auto)]

mod calls;
mod extent;
mod fault;
mod index;
mod laws;
mod lent;
mod marks;
mod memory;
mod script;

pub use calls::{MOST_BYTES, Store};
pub use fault::StoreFault;
pub use laws::store_stands;
pub use marks::Mark;
pub use memory::MemoryStore;
pub use script::FaultScript;
