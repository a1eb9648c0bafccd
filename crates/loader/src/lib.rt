//! A text of rows put into a table, and a table written out as a text of rows.
#![tactic(auto)]

mod fault;
mod listing;
mod loading;

pub use fault::LoadFault;
pub use listing::list;
pub use loading::{Loaded, load};
