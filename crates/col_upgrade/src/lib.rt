//! Writes a file of any version again as one of the current version: the same table, with the same
//! cardinalities, unused terms and columns without values. Contracts see the tables that files
//! stand for.
#![tactic(auto)]

mod entry;
mod indexes;
mod numbers;
mod whole_column;
mod whole_file;

pub use whole_file::upgrade;
