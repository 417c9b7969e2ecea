//! The types of columns, and single values of them, terms by their bytes among these. Contracts see a type as the definitions have
//! it, and a value as the cell that stands in a table.
#![tactic(auto)]

mod coerce;
mod column_type;
mod has_associated_column_type;
mod laws;
mod numerical_type;
mod numerical_value;
mod space_usage;
mod stored;
mod term_bytes;

pub use coerce::Coerce;
pub use column_type::ColumnType;
pub use has_associated_column_type::HasAssociatedColumnType;
pub use laws::{
    accepted_numbers_fit, byte_counts_compare_as_their_numbers, cells_lie_between_as_values_do,
    column_types_compare_as_their_codes, equal_numerical_types_hash_alike,
    stored_addresses_are_cells_of_their_column, stored_numbers_are_cells_of_their_column,
};
pub use numerical_type::NumericalType;
pub use numerical_value::NumericalValue;
pub use space_usage::ColumnSpaceUsage;
pub use stored::{StoredAsU64, StoredAsU128};
pub use term_bytes::TermBytes;
