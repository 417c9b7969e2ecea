//! Tests of columns of every type, by examples.
#![tactic(auto)]

#[cfg(test)]
mod column;
#[cfg(test)]
mod dynamic;
#[cfg(test)]
mod open;
#[cfg(test)]
mod text;
