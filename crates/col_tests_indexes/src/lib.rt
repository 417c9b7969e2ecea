//! Tests of row orders, and of indexes that are read, built, written and merged, by examples.
#![tactic(auto)]

#[cfg(test)]
mod index;
#[cfg(test)]
mod indexer;
#[cfg(test)]
mod order;
