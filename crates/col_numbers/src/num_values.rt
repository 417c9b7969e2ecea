//! Values of a type: a list of numbers that is read, one that is coerced, or none.
ghost use Rattle.std.specs.Prelude.{◌≡◌, ◌≤◌, ◌<◌, ◌^◌, ◌∷◌, length, map, drop, pos, nat_abs, true, option_map, None, IfSome, IfNone};
ghost use Rattle.std.specs.List.{AllByRecursion, list_all};
ghost use Rattle.col_common.specs.Ascending.{AreBelow};
ghost use Rattle.col_common.specs.Decoding.{Decodes};
ghost use Rattle.col_model.specs.Images.{images64};
ghost use Rattle.col_model.specs.U64List.{values64};
ghost use Rattle.col_numbers.specs.Coercions.{as_i64, as_u64, fits_i64, is_not_negative};
ghost use Rattle.col_numbers.specs.NumValues.{num_values_of, images_of};
ghost use Rattle.col_numbers.specs.Readers.{list_of};
ghost use Rattle.col_numbers.specs.CodecTypes.{code_of};

use crate::{CodecType, MapToOtherHalf, NumView, U64Values};
use bytes::Bytes;
use col_codecs::{BitpackedCodec, BlockwiseLinearCodec, ColumnCodec, LinearCodec};
use col_common::{ColumnarError, Iterable, RowId, Walk};
use col_values::{
    ColumnValues, EmptyColumnValues, Found, MonotonicallyMappableToU64, Rows,
    StrictlyMonotonicMappingToInternal,
};
use std::alloc::Global;

/// Values of a type: those whose numbers are read, numbers of the other numerical type, or none.
#[derive(Drop)]
pub enum NumValues<T: MonotonicallyMappableToU64> {
    Read(NumView<T, StrictlyMonotonicMappingToInternal<u64>>),
    Coerced(NumView<T, MapToOtherHalf>),
    Empty(EmptyColumnValues),
}

impl<T: MonotonicallyMappableToU64 + Default> NumValues<T> {
    ghost use Rattle.col_values.specs.Monotonic.{AllMapped};
    ghost use Rattle.col_numbers.specs.NumValues.{num_values_of, IsLow, IsHigh, HasExactBounds};

    /// That each value is one of its type, and so is each bound of values; the bounds are exact.
    pub fn values_are_in_type(&self)
        ensures values { AllMapped T.in_type (num_values_of self.now)
            (IsLow T.partial_cmp T.is_default self.now)
            (IsHigh T.partial_cmp T.is_default self.now) }
        ensures bounds { HasExactBounds T.partial_cmp T.is_default self.now }
    {
        match self {
            NumValues::Read(values) => values.values_are_in_type(),
            NumValues::Coerced(values) => values.values_are_in_type(),
            NumValues::Empty(_) => {}
        }
    }
}

impl<T: MonotonicallyMappableToU64 + Default> ColumnValues<T> for NumValues<T> {
    ghost use Rattle.col_numbers.specs.NumValues.{num_values_of, IsLow, IsHigh};

    ghost values = { num_values_of };

    ghost IsLeast = { IsLow T.partial_cmp T.is_default };

    ghost IsGreatest = { IsHigh T.partial_cmp T.is_default };

    fn num_vals(&self) -> u32 {
        match self {
            NumValues::Read(values) => values.num_vals(),
            NumValues::Coerced(values) => values.num_vals(),
            NumValues::Empty(_) => 0,
        }
    }

    #[inline(always)]
    fn get_val(&self, idx: u32) -> T {
        match self {
            NumValues::Read(values) => values.get_val(idx),
            NumValues::Coerced(values) => values.get_val(idx),
            NumValues::Empty(values) => values.get_val(idx),
        }
    }

    fn min_value(&self) -> T {
        match self {
            NumValues::Read(values) => values.min_value(),
            NumValues::Coerced(values) => values.min_value(),
            NumValues::Empty(values) => values.min_value(),
        }
    }

    fn max_value(&self) -> T {
        match self {
            NumValues::Read(values) => values.max_value(),
            NumValues::Coerced(values) => values.max_value(),
            NumValues::Empty(values) => values.max_value(),
        }
    }

    fn get_vals(&self, indexes: &[u32], output: &mut [T]) {
        match self {
            NumValues::Read(values) => values.get_vals(indexes, output),
            NumValues::Coerced(values) => values.get_vals(indexes, output),
            NumValues::Empty(values) => values.get_vals(indexes, output),
        }
    }

    fn get_vals_opt(&self, indexes: &[u32], output: &mut [Option<T>]) {
        match self {
            NumValues::Read(values) => values.get_vals_opt(indexes, output),
            NumValues::Coerced(values) => values.get_vals_opt(indexes, output),
            NumValues::Empty(values) => values.get_vals_opt(indexes, output),
        }
    }

    fn get_range(&self, start: u64, output: &mut [T]) {
        match self {
            NumValues::Read(values) => values.get_range(start, output),
            NumValues::Coerced(values) => values.get_range(start, output),
            NumValues::Empty(values) => values.get_range(start, output),
        }
    }

    fn get_row_ids_between(&self, low: T, high: T, rows: Rows, hits: &mut Vec<RowId>) -> Found {
        match self {
            NumValues::Read(values) => values.get_row_ids_between(low, high, rows, hits),
            NumValues::Coerced(values) => values.get_row_ids_between(low, high, rows, hits),
            NumValues::Empty(values) => values.get_row_ids_between(low, high, rows, hits),
        }
    }
}

impl<T: MonotonicallyMappableToU64 + Default> Iterable<T> for NumValues<T> {
    ghost items = { num_values_of };

    ghost stands = { λ r w. w.place ≤ length (num_values_of r) };

    ghost left = { λ r w. drop w.place (num_values_of r) };

    fn walk(&self) -> Walk {
        self.iter().walk()
    }

    #[inline]
    fn next(&self, at: &mut Walk) -> Option<T> {
        self.iter().next(at)
    }
}

// Whether each number stands for a value of the type.
fn is_each_image<T: MonotonicallyMappableToU64>(values: &U64Values) -> bool
    ensures { result ≡ list_all T.is_code (list_of values.now) }
{
    for idx in 0..values.num_vals() {
        if !T::is_image(values.get_val(idx)) {
            return false;
        }
    }
    true
}

// The same, which the greatest number tells where images reach down.
fn are_images<T: MonotonicallyMappableToU64>(values: &U64Values) -> bool
    ensures images { result ≡ list_all T.is_code (list_of values.now) }
    ensures fit { AreBelow (2 ^ 64) (list_of values.now) }
{
    let greatest = values.max_value();
    if values.num_vals() == 0 {
        return true;
    }
    if T::images_reach_down() {
        return T::is_image(greatest);
    }
    is_each_image::<T>(values)
}

// The values of the type that these numbers stand for, where each stands for one.
fn see_as<T: MonotonicallyMappableToU64 + Default>(
    values: U64Values,
) -> Result<NumValues<T>, ColumnarError>
    ensures ok { Decodes num_values_of result
        (option_map (map T.value) (images_of T.is_code (list_of values))) }
{
    if !are_images::<T>(&values) {
        return Err(ColumnarError::InvalidData);
    }
    Ok(NumValues::Read(NumView::new(values, StrictlyMonotonicMappingToInternal::new())))
}

impl CodecType {
    ghost use Rattle.col_numbers.specs.CodecTypes.{code_of};
    ghost use Rattle.col_numbers.specs.Readers.{list_of};
    ghost use Rattle.col_numbers.specs.NumValues.{num_values_of};

    /// Reads the bytes behind the codec's code.
    pub fn load_u64(self, alloc: Global, bytes: Bytes) -> Result<U64Values, ColumnarError>
        ensures { Decodes list_of result (values64 (code_of self ∷ bytes)) }
    {
        match self {
            CodecType::Bitpacked => Ok(U64Values::Bitpacked(BitpackedCodec::load(alloc, bytes)?)),
            CodecType::Linear => Ok(U64Values::Linear(LinearCodec::load(alloc, bytes)?)),
            CodecType::BlockwiseLinear => Ok(U64Values::BlockwiseLinear(BlockwiseLinearCodec::load(
                alloc, bytes,
            )?)),
        }
    }

    /// Reads the bytes behind the codec's code as values of a type, each of which must be one.
    pub fn load<T: MonotonicallyMappableToU64 + Default>(
        self,
        alloc: Global,
        bytes: Bytes,
    ) -> Result<NumValues<T>, ColumnarError>
        ensures ok { Decodes num_values_of result
            (option_map (map T.value) (images64 T.is_code (code_of self ∷ bytes))) }
    {
        see_as(self.load_u64(alloc, bytes)?)
    }
}

// The codec of a list's bytes, by their first one; where there is none, they stand for no list.
fn codec_of(bytes: &[u8]) -> Option<CodecType>
    ensures code { IfSome result (λ codec. bytes.now ≡ code_of codec ∷ drop 1 bytes.now) }
    ensures none { IfNone result (values64 bytes.now ≡ None) }
{
    let [code, ..] = bytes else {
        return None;
    };
    CodecType::try_from_code(*code)
}

/// Reads a list of numbers, under any codec.
pub fn load_u64_values(alloc: Global, bytes: Bytes) -> Result<U64Values, ColumnarError>
    ensures { Decodes list_of result (values64 bytes) }
{
    let Some(codec) = codec_of(bytes.as_slice()) else {
        return Err(ColumnarError::InvalidData);
    };
    let mut behind = bytes;
    behind.advance(1);
    codec.load_u64(alloc, behind)
}

/// Reads a list of values of a type, under any codec.
pub fn load_u64_based_column_values<T: MonotonicallyMappableToU64 + Default>(
    alloc: Global,
    bytes: Bytes,
) -> Result<NumValues<T>, ColumnarError>
    ensures ok { Decodes num_values_of result
        (option_map (map T.value) (images64 T.is_code bytes)) }
{
    let Some(codec) = codec_of(bytes.as_slice()) else {
        return Err(ColumnarError::InvalidData);
    };
    let mut behind = bytes;
    behind.advance(1);
    codec.load(alloc, behind)
}

// Whether each number is at most the greatest signed one.
fn are_i64(values: &NumValues<u64>) -> bool
    ensures { result ≡ list_all fits_i64 (num_values_of values.now) }
{
    values.max_value() <= i64::MAX.cast_unsigned()
}

// Whether each number is at least 0.
fn are_u64(values: &NumValues<i64>) -> bool
    ensures { result ≡ list_all is_not_negative (num_values_of values.now) }
{
    values.min_value() >= 0
}

// The same numbers with a sign.
fn see_as_i64(values: NumValues<u64>) -> NumValues<i64>
    requires { list_all fits_i64 (num_values_of values) ≡ true }
    ensures { num_values_of result ≡ map pos (num_values_of values) }
{
    match values {
        NumValues::Read(view) => {
            NumValues::Coerced(NumView::new(view.into_parts().0, MapToOtherHalf { rises: true }))
        }
        NumValues::Coerced(view) => NumValues::Read(NumView::new(
            view.into_parts().0,
            StrictlyMonotonicMappingToInternal::new(),
        )),
        NumValues::Empty(values) => NumValues::Empty(values),
    }
}

// The same numbers without a sign.
fn see_as_u64(values: NumValues<i64>) -> NumValues<u64>
    requires { list_all is_not_negative (num_values_of values) ≡ true }
    ensures { num_values_of result ≡ map nat_abs (num_values_of values) }
{
    match values {
        NumValues::Read(view) => {
            NumValues::Coerced(NumView::new(view.into_parts().0, MapToOtherHalf { rises: false }))
        }
        NumValues::Coerced(view) => NumValues::Read(NumView::new(
            view.into_parts().0,
            StrictlyMonotonicMappingToInternal::new(),
        )),
        NumValues::Empty(values) => NumValues::Empty(values),
    }
}

/// The same numbers with a sign, exactly where all are at most the greatest signed one.
pub fn coerce_to_i64(values: NumValues<u64>) -> Option<NumValues<i64>>
    ensures { option_map num_values_of result ≡ as_i64 (num_values_of values) }
{
    if !are_i64(&values) {
        return None;
    }
    Some(see_as_i64(values))
}

/// The same numbers without a sign, exactly where all are at least 0.
pub fn coerce_to_u64(values: NumValues<i64>) -> Option<NumValues<u64>>
    ensures { option_map num_values_of result ≡ as_u64 (num_values_of values) }
{
    if !are_u64(&values) {
        return None;
    }
    Some(see_as_u64(values))
}
