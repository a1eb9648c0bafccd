//! What the lines of a script set up: the record, the settings and tables.
#![tactic(auto)]

pub mod fresh_table;
pub mod loads;
pub mod records;
pub mod replays;
pub mod settings;
