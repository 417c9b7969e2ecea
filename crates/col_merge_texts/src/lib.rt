//! Writes the merged column of columns of terms. Contracts see the columns, an order of their rows,
//! and what stands in the bytes that are written.
#![tactic(auto)]

mod merge_dict_column;
mod noted_terms;
mod take_terms;

pub use merge_dict_column::{merge_bytes_or_str_column, ordinals_are_told};
