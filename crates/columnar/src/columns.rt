//! Columns apart from files: what their calls answer, and their bytes.

pub use col_column::{
    DocValues, FirstValueWithDefault, IpValues, open_column_u64, open_column_u128,
    open_column_u128_as_compact_u64, serialize_column_mappable_to_u64,
    serialize_column_mappable_to_u128, serialize_generated_tie_breaker_column,
};
pub use col_dynamic_open::{
    LenientColumn, LenientValues, open_column, open_column_u64_lenient, space_usage_of,
};
pub use col_text::{open_column_bytes, open_column_str};
pub use col_types::{Coerce, StoredAsU64, StoredAsU128};
