//! Columns of numbers, times, flags and addresses: an index with values, what can be asked of
//! their rows, and their bytes. Contracts see a column as the shape of its index with its values,
//! which cut into rows.
#![tactic(auto)]

mod column;
mod doc_values;
mod first_value_with_default;
mod ip_values;
mod laws;
mod open;
mod serialize;

pub use col_indexer::{
    Cardinality, ColumnIndex, RowIds, SerializableColumnIndex, StartOffsets, Version,
};
pub use col_numbers::{MapI64ToU64, MapU64ToI64, NumValues, coerce_to_i64, coerce_to_u64};
pub use column::{Column, NumColumn};
pub use doc_values::DocValues;
pub use first_value_with_default::FirstValueWithDefault;
pub use ip_values::{IpColumn, IpValues};
pub use laws::{count_doc_values, lookups_are_those_of_cells};
pub use open::{
    open_column_u64, open_column_u128, open_column_u128_as_compact_u64, open_term_ords,
};
pub use serialize::{
    serialize_column_mappable_to_u64, serialize_column_mappable_to_u128,
    serialize_generated_tie_breaker_column,
};
