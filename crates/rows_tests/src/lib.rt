//! Edges of the lines of rows, run.
#![tactic(auto)]

#[cfg(test)]
mod edges;
#[cfg(test)]
mod sizes;
#[cfg(test)]
mod texts;
