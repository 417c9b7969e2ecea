//! Columns of a file, open: all of them, or those that are asked for. Contracts see the table of
//! these columns, and find them by name and type.
#![tactic(auto)]

mod open;
mod open_columns;
mod wanted;

pub use open::{open_all, open_where};
pub use open_columns::{OpenColumn, OpenColumns};
