//! Scripts: their lines, words, numbers and texts.
#![tactic(auto)]

pub mod call;
pub mod hex;
pub mod number;
pub mod parts;
pub mod reason;
pub mod script;
pub mod words;
