//! Maps and lists of values by examples.

pub(crate) mod doubling;
mod lists;
mod maps;
