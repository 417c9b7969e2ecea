//! The values of columns in a merged order, as lists that are walked. A column of
//! them is written from memory, so that they are walked once.
//! Contracts see the columns of segments, and the order that picks their rows.
#![tactic(auto)]

mod in_memory;
mod laws;
mod lists;
mod merged_column_values;
mod picked;
mod remapped_term_ordinals;
mod room;
mod runs;
mod segments;

pub use in_memory::{InMemory, serialize_collected_u128, serialize_merged_u64};
pub use laws::{merged_cells_are_picked, merged_values_are_rows};
pub use merged_column_values::MergedColumnValues;
pub use remapped_term_ordinals::RemappedTermOrdinalsValues;
