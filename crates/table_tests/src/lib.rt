//! The edges of tables, run on a sorted table and an arrival log.
#![tactic(auto)]

#[cfg(test)]
mod lines;
#[cfg(test)]
mod order;
#[cfg(test)]
mod replacing;
#[cfg(test)]
mod room;
