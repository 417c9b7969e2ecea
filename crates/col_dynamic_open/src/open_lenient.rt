//! Opens columns of any type as columns of numbers.
ghost use Rattle.std.specs.Prelude.{◌≡◌, length, option_map, IfOk};
ghost use Rattle.col_common.specs.Decoding.{Decodes};
ghost use Rattle.col_common.specs.Reading.{only_if};
ghost use Rattle.col_dynamic.specs.Columns.{IsCounted};
ghost use Rattle.col_dynamic.specs.Opened.{codes_behind};
ghost use Rattle.col_dynamic.specs.Versions.{version_number};
ghost use Rattle.col_model.specs.Column.{column};
ghost use Rattle.col_model.specs.ColumnType as types;
ghost use Rattle.col_common.specs.Ascending.{are_below};
ghost use Rattle.col_model.specs.Dictionary.{terms};
ghost use Rattle.col_dynamic.specs.NumValues.{num_values_of};
ghost use Rattle.col_types.specs.Kinds.{kind_of};
ghost use Rattle.col_dynamic_open.specs.Contents.{DecodesTo};
ghost use Rattle.col_dynamic_open.specs.Lenient.{IsInPlaceOf, codes_spelled, seen_as};
ghost use Rattle.col_dynamic_open.specs.LenientValues.{codes_of};

use crate::lenient::{LenientColumn, LenientValues};
use bytes::Bytes;
use col_common::{ColumnarError, RowId};
use col_dynamic::{
    Column, ColumnType, NumColumn, NumValues, Version, cut_dictionary,
    open_column_u128_as_compact_u64, open_term_ords,
};
use col_terms::Dictionary;
use col_values::ColumnValues;
use std::alloc::Global;

// What each number of a column of flags is below.
const FLAGS_END: u64 = 2;

/// Reads a column of so many rows of a type as one of numbers; codes of addresses are those that
/// stand in the bytes. It answers InvalidData exactly where the bytes are no column of that type,
/// version and row count.
pub fn open_column_u64_lenient(
    alloc: Global,
    column_type: ColumnType,
    bytes: Bytes,
    format_version: Version,
    num_rows: RowId,
) -> Result<LenientColumn, ColumnarError>
    ensures column { DecodesTo (IsInPlaceOf (kind_of column_type)) result
        (column bytes (kind_of column_type) (version_number format_version) num_rows) }
    ensures codes { IfOk result
        (λ c. codes_of c.values ≡ codes_spelled (kind_of column_type) bytes) }
{
    match column_type {
        ColumnType::I64 => open_i64(alloc, bytes, format_version, num_rows),
        ColumnType::U64 => open_u64(alloc, bytes, format_version, num_rows),
        ColumnType::Bytes => open_bytes(alloc, bytes, format_version, num_rows),
        ColumnType::Str => open_str(alloc, bytes, format_version, num_rows),
        ColumnType::Bool => open_bool(alloc, bytes, format_version, num_rows),
        ColumnType::IpAddr => open_ip_addr(alloc, bytes, format_version, num_rows),
        ColumnType::DateTime => open_datetime(alloc, bytes, format_version, num_rows),
    }
}

fn open_i64(
    alloc: Global,
    bytes: Bytes,
    format_version: Version,
    num_rows: RowId,
) -> Result<LenientColumn, ColumnarError>
    ensures { DecodesTo (IsInPlaceOf types.i64) result
        (column bytes types.i64 (version_number format_version) num_rows) }
{
    let numbers = open_term_ords(alloc, bytes, format_version, num_rows)?;
    Ok(of_numbers(numbers))
}

fn open_u64(
    alloc: Global,
    bytes: Bytes,
    format_version: Version,
    num_rows: RowId,
) -> Result<LenientColumn, ColumnarError>
    ensures { DecodesTo (IsInPlaceOf types.u64) result
        (column bytes types.u64 (version_number format_version) num_rows) }
{
    let numbers = open_term_ords(alloc, bytes, format_version, num_rows)?;
    Ok(of_numbers(numbers))
}

fn open_datetime(
    alloc: Global,
    bytes: Bytes,
    format_version: Version,
    num_rows: RowId,
) -> Result<LenientColumn, ColumnarError>
    ensures { DecodesTo (IsInPlaceOf types.datetime) result
        (column bytes types.datetime (version_number format_version) num_rows) }
{
    let numbers = open_term_ords(alloc, bytes, format_version, num_rows)?;
    Ok(of_numbers(numbers))
}

fn open_bool(
    alloc: Global,
    bytes: Bytes,
    format_version: Version,
    num_rows: RowId,
) -> Result<LenientColumn, ColumnarError>
    ensures { DecodesTo (IsInPlaceOf types.bool) result
        (column bytes types.bool (version_number format_version) num_rows) }
{
    let numbers = open_term_ords(alloc, bytes, format_version, num_rows)?;
    numbers_below(numbers, FLAGS_END)
}

fn open_str(
    alloc: Global,
    bytes: Bytes,
    format_version: Version,
    num_rows: RowId,
) -> Result<LenientColumn, ColumnarError>
    ensures { DecodesTo (IsInPlaceOf types.str) result
        (column bytes types.str (version_number format_version) num_rows) }
{
    open_bytes(alloc, bytes, format_version, num_rows)
}

fn open_bytes(
    alloc: Global,
    bytes: Bytes,
    format_version: Version,
    num_rows: RowId,
) -> Result<LenientColumn, ColumnarError>
    ensures { DecodesTo (IsInPlaceOf types.bytes) result
        (column bytes types.bytes (version_number format_version) num_rows) }
{
    let (terms, ords) = cut_dictionary(bytes)?;
    let num_terms = count_terms(terms)?;
    let numbers = open_term_ords(alloc, ords, format_version, num_rows)?;
    numbers_below(numbers, num_terms)
}

fn open_ip_addr(
    alloc: Global,
    bytes: Bytes,
    format_version: Version,
    num_rows: RowId,
) -> Result<LenientColumn, ColumnarError>
    ensures column { DecodesTo (IsInPlaceOf types.ip) result
        (column bytes types.ip (version_number format_version) num_rows) }
    ensures codes { IfOk result (λ c. codes_of c.values ≡ codes_behind bytes) }
{
    let codes = open_column_u128_as_compact_u64(alloc, bytes, format_version, num_rows)?;
    let (index, values) = codes.into_parts();
    Ok(Column::new(index, LenientValues::Compact(values)))
}

// The same column over numbers that may also be codes.
fn of_numbers(column: NumColumn<u64>) -> LenientColumn
    ensures { result ≡ seen_as column }
{
    let (index, values) = column.into_parts();
    Column::new(index, LenientValues::Num(values))
}

// The same, where each number is below a bound.
fn numbers_below(column: NumColumn<u64>, bound: u64) -> Result<LenientColumn, ColumnarError>
    ensures below { Decodes (λ c. c) result
        (only_if (are_below bound (num_values_of column.values)) (seen_as column)) }
    ensures counted { IsCounted column.shape (length (num_values_of column.values)) }
{
    let (index, values) = column.into_parts();
    if !are_below(&values, bound) {
        return Err(ColumnarError::InvalidData);
    }
    Ok(Column::new(index, LenientValues::Num(values)))
}

// Whether each number is below a bound, which the greatest one tells.
fn are_below(values: &NumValues<u64>, bound: u64) -> bool
    ensures { result ≡ are_below bound (num_values_of values.now) }
{
    values.num_vals() == 0 || values.max_value() < bound
}

// How many terms the bytes of a dictionary have.
fn count_terms(bytes: Bytes) -> Result<u64, ColumnarError>
    ensures { Decodes (λ n. n) result (option_map length (terms bytes)) }
{
    let dictionary = Dictionary::from_bytes(bytes)?;
    Ok(dictionary.num_terms() as u64)
}
