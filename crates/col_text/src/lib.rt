//! Columns of terms: a dictionary, and a column of the ordinals of its terms. Contracts see the
//! terms, and the column of ordinals.
#![tactic(auto)]

mod dictionary_encoded;
mod open;

pub use col_column::{
    Cardinality, Column, ColumnIndex, DocValues, FirstValueWithDefault, IpColumn, IpValues,
    MapI64ToU64, MapU64ToI64, NumColumn, NumValues, Version, coerce_to_i64, coerce_to_u64,
    lookups_are_those_of_cells, open_column_u64, open_column_u128, open_column_u128_as_compact_u64,
    open_term_ords, serialize_column_mappable_to_u64, serialize_column_mappable_to_u128,
    serialize_generated_tie_breaker_column,
};
pub use dictionary_encoded::{BytesColumn, StrColumn};
pub use open::{cut_dictionary, open_column_bytes, open_column_str};
