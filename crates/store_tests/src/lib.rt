//! Tests of the store's exact bounds.
#![tactic(auto)]

#[cfg(test)]
mod bounds;
#[cfg(test)]
mod marks;
