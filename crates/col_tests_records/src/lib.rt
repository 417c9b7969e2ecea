//! Tests of footers, recorded values and the files that are written of them, by examples.
#![tactic(auto)]

#[cfg(test)]
mod keys;
#[cfg(test)]
mod record;
#[cfg(test)]
mod refused;
#[cfg(test)]
mod writer;
