//! Lists of numbers: any codec by its code, the choice among them, and values of types over them.
#![tactic(auto)]

mod codec_type;
mod coercion;
mod estimator;
mod laws;
mod num_values;
mod num_view;
mod serialize;
mod u64_values;

pub use codec_type::{ALL_U64_CODEC_TYPES, CodecType};
pub use coercion::{MapI64ToU64, MapToOtherHalf, MapU64ToI64};
pub use estimator::Estimator;
pub use laws::codecs_compare_as_their_codes;
pub use num_values::{
    NumValues, coerce_to_i64, coerce_to_u64, load_u64_based_column_values, load_u64_values,
};
pub use num_view::NumView;
pub use serialize::{
    collect_stats, serialize_and_load_u64_based_column_values, serialize_and_load_u64_values,
    serialize_estimated_values, serialize_u64_based_column_values,
};
pub use u64_values::U64Values;
