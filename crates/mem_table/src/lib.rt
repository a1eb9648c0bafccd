//! Tables of rows: what their calls promise, and a row with storage of its own.
#![tactic(auto)]

mod buffer;
mod calls;
mod digits;
mod fault;
mod laws;
mod lent;

pub use buffer::RowBuf;
pub use calls::Table;
pub use fault::TableFault;
pub use laws::table_stands;
