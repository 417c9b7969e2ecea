//! Reads indexes.
ghost use Rattle.std.specs.Prelude.{◌≡◌, ◌==◌, ◌≤◌, ◌-◌, ◌∷◌, drop, length, option_map, None, IfSome, IfNone, IfOk};
ghost use Rattle.col_common.specs.Decoding.{Decodes};
ghost use Rattle.col_model.specs.Index.{row_set, listed_set, formed_set, run_set, row_offsets, offset_counts_v1, shape, multivalued_shape};
ghost use Rattle.col_model.specs.Table.{cardinality_code};
ghost use Rattle.col_index.specs.Versions.{version_number, cardinality_of};
ghost use Rattle.col_common.specs.Ascending.{differences};
ghost use Rattle.col_index.specs.Opening.{row_count_at, first_byte_cardinality, multivalued_at};
ghost use Rattle.col_index.specs.MultiValues.{value_counts_of, has_old_offsets};
ghost use Rattle.col_index.specs.Indexes.{shape_of, IsOfVersion};

use crate::cardinality::Cardinality;
use crate::column_index::ColumnIndex;
use crate::format_version::Version;
use crate::multivalued_index::MultiValueIndex;
use crate::multivalued_index_v1::MultiValueIndexV1;
use crate::multivalued_index_v2::MultiValueIndexV2;
use crate::optional_index::OptionalIndex;
use bytes::Bytes;
use col_common::{ColumnarError, InvalidData, RowId, cut_by_first, cut_rest, read_vint};
use col_numbers::load_u64_values;
use std::alloc::Global;

/// The form of rows one by one.
const LISTED_FORM: u8 = 0;

/// The form of rows in runs.
const RUNS_FORM: u8 = 1;

/// Reads an index of rows that have at most one value, as a version has it.
pub fn open_optional_index(
    alloc: Global,
    bytes: Bytes,
    format_version: Version,
) -> Result<OptionalIndex, ColumnarError>
    ensures { Decodes (λ index. index) result (row_set (version_number format_version) bytes) }
{
    match format_version {
        Version::V1 | Version::V2 => open_listed(alloc, bytes),
        Version::V3 => open_formed(alloc, bytes),
    }
}

// Reads rows one by one or in runs, by the byte of the form.
fn open_formed(alloc: Global, bytes: Bytes) -> Result<OptionalIndex, ColumnarError>
    ensures { Decodes (λ index. index) result (formed_set bytes) }
{
    let Some(form) = first_form(bytes.as_slice()) else {
        return Err(ColumnarError::InvalidData);
    };
    let mut behind = bytes;
    behind.advance(1);
    open_by_form(alloc, form, behind)
}

// The byte of the form.
fn first_form(bytes: &[u8]) -> Option<u8>
    ensures form { IfSome result (λ form. bytes.now ≡ form ∷ drop 1 bytes.now) }
    ensures none { IfNone result (formed_set bytes.now ≡ None) }
{
    let [form, ..] = bytes else {
        return None;
    };
    Some(*form)
}

// Reads rows behind the byte of their form.
fn open_by_form(alloc: Global, form: u8, bytes: Bytes) -> Result<OptionalIndex, ColumnarError>
    ensures { Decodes (λ index. index) result (formed_set (form ∷ bytes)) }
{
    match form {
        LISTED_FORM => open_listed(alloc, bytes),
        RUNS_FORM => open_runs(alloc, bytes),
        _ => Err(ColumnarError::InvalidData),
    }
}

// Reads a row count and rows one by one.
fn open_listed(alloc: Global, bytes: Bytes) -> Result<OptionalIndex, ColumnarError>
    ensures { Decodes (λ index. index) result (listed_set bytes) }
{
    let Some((num_rows, rows)) = split_count(bytes) else {
        return Err(ColumnarError::InvalidData);
    };
    let num_bytes = rows.len();
    OptionalIndex::from_rows(alloc, num_rows, load_u64_values(alloc, rows)?, num_bytes)
}

// Reads a row count and rows in runs.
fn open_runs(alloc: Global, bytes: Bytes) -> Result<OptionalIndex, ColumnarError>
    ensures { Decodes (λ index. index) result (run_set bytes) }
{
    let Some((num_rows, lists)) = split_count(bytes) else {
        return Err(ColumnarError::InvalidData);
    };
    let (first, second) = cut_by_first(lists)?;
    let starts = load_u64_values(alloc, first)?;
    let lengths = load_u64_values(alloc, second)?;
    OptionalIndex::from_runs(alloc, num_rows, starts, lengths)
}

/// Reads an index of rows that have any number of values, as a version has it.
pub fn open_multivalued_index(
    alloc: Global,
    bytes: Bytes,
    format_version: Version,
) -> Result<MultiValueIndex, ColumnarError>
    ensures answer { Decodes (λ index. multivalued_shape (value_counts_of index)) result
        (multivalued_at (version_number format_version) bytes) }
    ensures version { IfOk result (λ index.
        has_old_offsets index ≡ (version_number format_version == 1)) }
{
    match format_version {
        Version::V1 => Ok(MultiValueIndex::MultiValueIndexV1(open_old_offsets(alloc, bytes)?)),
        Version::V2 | Version::V3 => {
            let index = open_offsets(alloc, bytes, format_version)?;
            Ok(MultiValueIndex::MultiValueIndexV2(index))
        }
    }
}

// Reads the offsets of all rows.
fn open_old_offsets(alloc: Global, bytes: Bytes) -> Result<MultiValueIndexV1, ColumnarError>
    ensures { Decodes (λ index. differences index) result (offset_counts_v1 bytes) }
{
    match MultiValueIndexV1::from_offsets(load_u64_values(alloc, bytes)?) {
        Some(index) => Ok(index),
        None => Err(ColumnarError::InvalidData),
    }
}

// Reads rows, their offsets, and the length of the rows.
fn open_offsets(
    alloc: Global,
    bytes: Bytes,
    format_version: Version,
) -> Result<MultiValueIndexV2, ColumnarError>
    ensures { Decodes (λ index. index) result (row_offsets (version_number format_version) bytes) }
{
    let (rows, starts) = cut_by_first(bytes)?;
    let optional_index = open_optional_index(alloc, rows, format_version)?;
    match MultiValueIndexV2::from_parts(optional_index, load_u64_values(alloc, starts)?) {
        Some(index) => Ok(index),
        None => Err(ColumnarError::InvalidData),
    }
}

/// Reads an index of any cardinality.
pub fn open_column_index(
    alloc: Global,
    bytes: Bytes,
    format_version: Version,
) -> Result<ColumnIndex, ColumnarError>
    ensures answer { Decodes shape_of result (shape bytes (version_number format_version)) }
    ensures version { IfOk result (IsOfVersion (version_number format_version)) }
{
    let Some(cardinality) = first_cardinality(bytes.as_slice()) else {
        return Err(ColumnarError::InvalidData);
    };
    let mut behind = bytes;
    behind.advance(1);
    open_as(alloc, cardinality, behind, format_version)
}

// Reads an index behind the byte of its cardinality.
fn open_as(
    alloc: Global,
    cardinality: Cardinality,
    bytes: Bytes,
    format_version: Version,
) -> Result<ColumnIndex, ColumnarError>
    ensures answer { let code = cardinality_code (cardinality_of cardinality) in
        Decodes shape_of result (shape (code ∷ bytes) (version_number format_version)) }
    ensures version { IfOk result (IsOfVersion (version_number format_version)) }
{
    match cardinality {
        Cardinality::Full => {
            if !bytes.is_empty() {
                return Err(ColumnarError::InvalidData);
            }
            Ok(ColumnIndex::Full)
        }
        Cardinality::Optional => Ok(ColumnIndex::Optional(open_optional_index(
            alloc,
            bytes,
            format_version,
        )?)),
        Cardinality::Multivalued => Ok(ColumnIndex::Multivalued(open_multivalued_index(
            alloc,
            bytes,
            format_version,
        )?)),
    }
}

// The cardinality of the first byte.
fn first_cardinality(bytes: &[u8]) -> Option<Cardinality>
    ensures code { IfSome result (λ c.
        bytes.now ≡ cardinality_code (cardinality_of c) ∷ drop 1 bytes.now) }
    ensures none { IfNone result (first_byte_cardinality bytes.now ≡ None) }
{
    let [code, ..] = bytes else {
        return None;
    };
    match Cardinality::try_from_code(*code) {
        Ok(cardinality) => Some(cardinality),
        Err(InvalidData) => None,
    }
}

// The row count at the front, and the bytes behind it.
fn split_count(bytes: Bytes) -> Option<(RowId, Bytes)>
    ensures { result ≡ row_count_at bytes }
{
    let (count, rest_len) = read_count(bytes.as_slice())?;
    Some((count, cut_rest(bytes, rest_len)))
}

// The row count at the front, and how many bytes are behind it.
fn read_count(bytes: &[u8]) -> Option<(RowId, usize)>
    ensures count { option_map (λ r. (r.0, drop (length bytes.now - r.1) bytes.now)) result
        ≡ row_count_at bytes.now }
    ensures rest { IfSome result (λ r. r.1 ≤ length bytes.now) }
{
    let (count, rest) = read_vint(bytes)?;
    if count > u64::from(u32::MAX) {
        return None;
    }
    Some((count as RowId, rest.len()))
}
