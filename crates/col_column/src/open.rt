//! Reads the bytes of columns.
ghost use Rattle.std.specs.Prelude.{◌≡◌, [], length, is_some, Some, IfOk};
ghost use Rattle.col_common.specs.Decoding.{Decodes};
ghost use Rattle.col_compact.specs.Coded.{numbers_of};
ghost use Rattle.col_indexer.specs.Indexes.{shape_of};
ghost use Rattle.col_indexer.specs.Versions.{version_number};
ghost use Rattle.col_model.specs.Column.{column, number_rows};
ghost use Rattle.col_model.specs.ColumnType as types;
ghost use Rattle.col_model.specs.Positions.{start_in};
ghost use Rattle.col_numbers.specs.NumValues.{num_values_of};
ghost use Rattle.col_types.specs.Cells.{unsigned_cell};
ghost use Rattle.col_column.specs.Columns.{content_seen};
ghost use Rattle.col_column.specs.IpValues.{ip_values_of, HasExactBounds};
ghost use Rattle.col_column.specs.Opened.{counts_exactly, counted_rows, indexed_by, codes_behind};

use crate::column::{Column, NumColumn};
use crate::ip_values::{IpColumn, IpValues};
use bytes::Bytes;
use col_common::{ColumnarError, RowId, cut_by_first};
use col_compact::{CompactSpaceU64Accessor, open_u128_as_compact_u64, open_u128_mapped};
use col_indexer::{ColumnIndex, Version, open_column_index};
use col_numbers::load_u64_based_column_values;
use col_types::StoredAsU64;
use col_values::ColumnValues;
use std::alloc::Global;

/// Reads a column of so many rows whose values stand as numbers of 64 bits. It answers InvalidData
/// exactly where the bytes are no column of that type, version and row count.
pub fn open_column_u64<T: StoredAsU64>(
    alloc: Global,
    bytes: Bytes,
    format_version: Version,
    num_rows: RowId,
) -> Result<NumColumn<T>, ColumnarError>
    ensures { Decodes (λ c. content_seen [] T.cell c.shape (num_values_of c.values)) result
        (column bytes T.kind (version_number format_version) num_rows) }
{
    let (index, values) = cut_by_first(bytes)?;
    let values = load_u64_based_column_values::<T>(alloc, values)?;
    column_of_values(alloc, index, format_version, num_rows, values)
}

/// Reads a column of so many rows of addresses. The bounds of the values are the least and the
/// greatest of them, and the unspecified address without values.
pub fn open_column_u128(
    alloc: Global,
    bytes: Bytes,
    format_version: Version,
    num_rows: RowId,
) -> Result<IpColumn, ColumnarError>
    ensures ok { Decodes (λ c. content_seen [] unsigned_cell c.shape (ip_values_of c.values)) result
        (column bytes types.ip (version_number format_version) num_rows) }
    ensures bounds { IfOk result (λ c. HasExactBounds c.values) }
{
    let (index, values) = cut_by_first(bytes)?;
    let values = IpValues::Read(open_u128_mapped(alloc, values)?);
    column_of_values(alloc, index, format_version, num_rows, values)
}

/// Reads a column of so many rows of addresses as the codes that stand in its bytes.
pub fn open_column_u128_as_compact_u64(
    alloc: Global,
    bytes: Bytes,
    format_version: Version,
    num_rows: RowId,
) -> Result<Column<u64, CompactSpaceU64Accessor>, ColumnarError>
    ensures ok { Decodes (λ c. counted_rows c.shape (numbers_of c.values)) result
        (number_rows bytes types.ip (version_number format_version) num_rows) }
    ensures codes { IfOk result (λ c. codes_behind bytes ≡ Some c.values) }
{
    let (index, values) = cut_by_first(bytes)?;
    let values = open_u128_as_compact_u64(alloc, values)?;
    column_of_values(alloc, index, format_version, num_rows, values)
}

/// Reads the ordinals of a column of terms of so many rows, from the bytes behind its dictionary.
pub fn open_term_ords(
    alloc: Global,
    bytes: Bytes,
    format_version: Version,
    num_rows: RowId,
) -> Result<NumColumn<u64>, ColumnarError>
    ensures { Decodes (λ c. counted_rows c.shape (num_values_of c.values)) result
        (number_rows bytes types.bytes (version_number format_version) num_rows) }
{
    let (index, values) = cut_by_first(bytes)?;
    let values = load_u64_based_column_values::<u64>(alloc, values)?;
    column_of_values(alloc, index, format_version, num_rows, values)
}

// Reads an index, and joins it with the values that it counts.
fn column_of_values<T, V>(
    alloc: Global,
    index: Bytes,
    format_version: Version,
    num_rows: RowId,
    values: V,
) -> Result<Column<T, V>, ColumnarError>
where
    T: PartialOrd + Copy,
    V: ColumnValues<T> + Drop,
    ensures { Decodes (λ c. c) result (indexed_by index (version_number format_version) num_rows
        (length (V.values values)) values) }
{
    let index = open_column_index(alloc, index, format_version)?;
    if !counts_exactly(&index, num_rows, values.num_vals()) {
        return Err(ColumnarError::InvalidData);
    }
    Ok(Column::new(index, values))
}

// Whether an index has so many rows, and counts just so many values.
fn counts_exactly(index: &ColumnIndex, num_rows: RowId, num_vals: u32) -> bool
    ensures { result ≡ is_some (counts_exactly num_rows num_vals (shape_of index.now)) }
{
    match index {
        ColumnIndex::Empty { num_docs } => *num_docs == num_rows && num_vals == 0,
        ColumnIndex::Full => num_rows == num_vals,
        ColumnIndex::Optional(set) => {
            set.rows_rise();
            set.num_docs() == num_rows && set.num_non_nulls() == num_vals
        }
        ColumnIndex::Multivalued(offsets) => {
            offsets.num_docs() == num_rows && num_values(index, num_rows) == num_vals
        }
    }
}

// How many values stand before a row.
fn num_values(index: &ColumnIndex, row: RowId) -> RowId
    ensures { result ≡ start_in (shape_of index.now) row }
{
    index.docid_range_to_rowids(0..row).end
}
