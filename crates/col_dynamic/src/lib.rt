//! Columns of any type, and what coerces those of numbers. It is where columns are found: it gives
//! the items of the crates of types, of numbers and addresses, and of terms too, and the maps
//! between the numerical types. Contracts see the type of a column and what stands in it.
#![tactic(auto)]

mod dynamic_column;

pub use col_text::{
    BytesColumn, Column, DocValues, FirstValueWithDefault, IpColumn, IpValues, MapI64ToU64,
    MapU64ToI64, NumColumn, NumValues, StrColumn, Version, cut_dictionary,
    lookups_are_those_of_cells, open_column_bytes, open_column_str, open_column_u64,
    open_column_u128, open_column_u128_as_compact_u64, open_term_ords,
    serialize_column_mappable_to_u64, serialize_column_mappable_to_u128,
    serialize_generated_tie_breaker_column,
};
pub use col_types::{
    Coerce, ColumnSpaceUsage, ColumnType, HasAssociatedColumnType, NumericalType, NumericalValue,
    StoredAsU64, StoredAsU128, TermBytes, accepted_numbers_fit,
    byte_counts_compare_as_their_numbers, cells_lie_between_as_values_do,
    column_types_compare_as_their_codes, equal_numerical_types_hash_alike,
    stored_addresses_are_cells_of_their_column, stored_numbers_are_cells_of_their_column,
};
pub use dynamic_column::DynamicColumn;
