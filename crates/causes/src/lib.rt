//! What a call says, by the number of its cause: the definitions that every layer's promises use, and refusals as they are printed.
#![tactic(auto)]

mod cause;
mod refusal;

pub use cause::Cause;
pub use refusal::{Refusal, Values};
