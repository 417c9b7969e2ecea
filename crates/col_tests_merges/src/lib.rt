//! Tests of merged terms and values, by examples.
#![tactic(auto)]

#[cfg(test)]
mod term_merge;
#[cfg(test)]
mod value_merge;
