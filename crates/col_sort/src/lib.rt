//! The order of a sorted merge: the rows of several files by the first value of a column. Contracts
//! see the order by its definition.
#![tactic(auto)]

mod by_columns;
mod column_key;
mod firsts;
mod key_bounds;
mod key_of;
mod numbers;
mod segment_texts;
mod sort;
mod texts;

pub use sort::sorted_order;
