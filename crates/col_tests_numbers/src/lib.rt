//! Tests of extremes, lists of numbers under each codec, and maps between their types, by examples.
#![tactic(auto)]

#[cfg(test)]
mod bits;
pub mod counted;
#[cfg(test)]
mod numbers;
