//! Tests of lists of values, maps, types, dictionaries and addresses, by examples.
#![tactic(auto)]

#[cfg(test)]
mod compact;
pub mod counting;
#[cfg(test)]
mod laws;
#[cfg(test)]
mod terms;
#[cfg(test)]
mod types;
#[cfg(test)]
mod values;
