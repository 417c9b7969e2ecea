//! Values by position: what a list of values can be asked, its views, and maps that keep an order.
#![tactic(auto)]

mod column_values;
mod empty_column_values;
mod laws;
mod monotonic_column;
mod monotonic_mapping;
mod monotonic_mapping_to_internal;
mod monotonic_mapping_u128;
mod monotonic_mapping_u64;
mod values_iter;
mod vec_column;

pub use column_values::{ColumnValues, Found, Rows};
pub use empty_column_values::EmptyColumnValues;
pub use laws::{
    count_items, images_are_told, inverses_lead_back, maps_increase,
    numbers_of_64_bits_are_read_back, numbers_of_64_bits_increase, numbers_of_128_bits_are_images,
    numbers_of_128_bits_are_read_back, numbers_of_128_bits_increase,
};
pub use monotonic_column::{MonotonicColumn, monotonic_map_column};
pub use monotonic_mapping::StrictlyMonotonicFn;
pub use monotonic_mapping_to_internal::{
    StrictlyMonotonicMappingInverter, StrictlyMonotonicMappingToInternal,
};
pub use monotonic_mapping_u64::MonotonicallyMappableToU64;
pub use monotonic_mapping_u128::MonotonicallyMappableToU128;
pub use values_iter::ValuesIter;
pub use vec_column::VecColumn;
