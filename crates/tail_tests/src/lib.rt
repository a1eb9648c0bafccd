//! Tests of how often a probe really asks: scripts whose marks are exactly enough, and one too few.
#![tactic(auto)]

#[cfg(test)]
mod bounds;
#[cfg(test)]
mod calls;
#[cfg(test)]
mod probing;
