//! Reads lists of numbers behind their header.
ghost use Rattle.std.specs.Prelude.{◌≡◌, ℕ, List, Some, map, option_map, IfOk};
ghost use Rattle.col_common.specs.Decoding.{Decodes};
ghost use Rattle.col_model.specs.Stats.{least_of, greatest_of};
ghost use Rattle.col_model.specs.AddressList.{values128};
ghost use Rattle.col_values.specs.Bounds.{IsMappedBound};
ghost use Rattle.col_compact.specs.Coded.{headed_list, numbers_of};

use crate::accessor::CompactSpaceU64Accessor;
use crate::decompressor::CompactSpaceDecompressor;
use crate::header::split_header;
use bytes::Bytes;
use col_common::ColumnarError;
use col_values::{
    MonotonicColumn, MonotonicallyMappableToU128, StrictlyMonotonicMappingInverter,
    StrictlyMonotonicMappingToInternal, monotonic_map_column,
};
use std::alloc::Global;

/// A list of numbers of 128 bits, seen as values of a type.
pub type U128View<T> = MonotonicColumn<
    u128,
    T,
    CompactSpaceDecompressor,
    StrictlyMonotonicMappingInverter<StrictlyMonotonicMappingToInternal<T>>,
>;

// Reads a list behind its header, whose count is the list's.
fn open_list(alloc: Global, bytes: Bytes) -> Result<CompactSpaceDecompressor, ColumnarError>
    ensures codes { Decodes (λ list. list) result (headed_list bytes) }
    ensures numbers { Decodes numbers_of result (values128 bytes) }
{
    let Some((count, behind)) = split_header(bytes) else {
        return Err(ColumnarError::InvalidData);
    };
    let list = CompactSpaceDecompressor::open(alloc, behind)?;
    if list.count() != count {
        return Err(ColumnarError::InvalidData);
    }
    Ok(list)
}

/// Reads a list as values of a type.
pub fn open_u128_mapped<T: MonotonicallyMappableToU128 + Default>(
    alloc: Global,
    bytes: Bytes,
) -> Result<U128View<T>, ColumnarError>
    ensures ok { Decodes (λ column. column.values) result
        (option_map (map T.value) (values128 bytes)) }
    ensures least { (xs : List ℕ) → values128 bytes ≡ Some xs → IfOk result (λ column.
        IsMappedBound T.is_default T.value xs (λ x. x ≡ least_of xs) column.low) }
    ensures greatest { (xs : List ℕ) → values128 bytes ≡ Some xs → IfOk result (λ column.
        IsMappedBound T.is_default T.value xs (λ x. x ≡ greatest_of xs) column.high) }
{
    let list = open_list(alloc, bytes)?;
    // That its numbers are below 2 ^ 128 is known of the greatest.
    let _greatest = CompactSpaceDecompressor::max_value(&list);
    let map = StrictlyMonotonicMappingToInternal::new();
    Ok(monotonic_map_column(list, StrictlyMonotonicMappingInverter::from(map)))
}

/// Reads a list as its codes.
pub fn open_u128_as_compact_u64(
    alloc: Global,
    bytes: Bytes,
) -> Result<CompactSpaceU64Accessor, ColumnarError>
    ensures codes { Decodes (λ list. list) result (headed_list bytes) }
    ensures numbers { Decodes numbers_of result (values128 bytes) }
{
    Ok(CompactSpaceU64Accessor {
        list: open_list(alloc, bytes)?,
    })
}
