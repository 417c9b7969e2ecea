//! Tests of adapters, objects in memory, walks, refusals and small values, by examples.
#![tactic(auto)]

#[cfg(test)]
mod adapters;
#[cfg(test)]
mod memory;
#[cfg(test)]
mod values;
#[cfg(test)]
mod walks;
