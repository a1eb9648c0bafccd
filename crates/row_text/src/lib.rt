//! Whole texts of rows: counted, sized, and written.
#![tactic(auto)]

mod again;
mod fault;
mod text;
mod write;

pub use again::{RewriteFault, rewrite};
pub use fault::CheckFault;
pub use text::{Checked, check, read_text};
pub use write::write_row;
