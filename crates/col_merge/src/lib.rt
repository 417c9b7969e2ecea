//! Merges files: one column for each name and category of their columns, of the rows that an order
//! picks. Contracts see the parts that the readers tell.
#![tactic(auto)]

mod join_columns;
mod joining;
mod merge;
mod opening;
mod short;
mod stack_from_readers;
mod turn;

pub use merge::merge_columnar;
pub use opening::open_columns;
pub use stack_from_readers::StackFromReaders;
