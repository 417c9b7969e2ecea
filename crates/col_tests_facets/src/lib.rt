//! Tests of facets.
#![tactic(auto)]

#[cfg(test)]
mod facets;
