//! Tests of the exact bounds of an opening and its window.
#![tactic(auto)]

#[cfg(test)]
mod fences;
#[cfg(test)]
mod windows;
