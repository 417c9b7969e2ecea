//! Columns of segments as indexes and lists of numbers, or of addresses.
ghost use Rattle.std.specs.Prelude.{◌≡◌, [], map, length, is_some, true, Some, IfOk, IfErr, IfSome};
ghost use Rattle.col_model.specs.ColumnType as types;
ghost use Rattle.col_order.specs.Orders.{counts_of};
ghost use Rattle.col_order.specs.RowOrders.{order_of};
ghost use Rattle.col_index.specs.Indexes.{shape_of};
ghost use Rattle.col_types.specs.Cells.{unsigned_cell};
ghost use Rattle.col_numbers.specs.NumValues.{num_values_of};
ghost use Rattle.col_column.specs.Columns.{row_count, content_seen};
ghost use Rattle.col_column.specs.IpValues.{ip_values_of};
ghost use Rattle.col_dynamic.specs.Dynamic.{content_of, dynamic_shape, value_count};
ghost use Rattle.col_dynamic.specs.declared.dynamic_column.DynamicColumn.TheVariants as columns;
ghost use Rattle.col_merge_column.specs.Merges.{columns_by};
ghost use Rattle.col_merge_slot.specs.Segments.{where_set, kept_of, HaveRows, is_read_as, IsPart, AreSegmentColumns, IsRefusedFor};
ghost use Rattle.col_merge_slot.specs.Taken.{TakesKept};

use crate::segment_parts::{SegmentValues, segment_parts};
use col_common::{ColumnarError, DateTime};
use col_dynamic::{DynamicColumn, IpColumn, IpValues, NumColumn, NumericalType};
use col_index::ColumnIndex;
use col_numbers::NumValues;
use col_order::MergeRowOrder;
use col_types::StoredAsU64;
use col_values::EmptyColumnValues;
use std::alloc::Global;

/// A type of numbers that columns of any type may be read as.
pub trait FromDynamic: StoredAsU64 {
    /// The column with its cells as values of this type, where each is one.
    fn numbers_of(column: DynamicColumn) -> Option<NumColumn<Self>>
        ensures read { is_some result ≡ is_read_as Self.kind column }
        ensures cells { IfSome result (λ c. content_of column
            ≡ content_seen [] Self.cell c.shape (num_values_of c.values)) };
}

impl FromDynamic for i64 {
    fn numbers_of(column: DynamicColumn) -> Option<NumColumn<i64>> {
        column.coerce_numerical(NumericalType::I64)?.into_i64()
    }
}

impl FromDynamic for u64 {
    fn numbers_of(column: DynamicColumn) -> Option<NumColumn<u64>> {
        column.coerce_numerical(NumericalType::U64)?.into_u64()
    }
}

impl FromDynamic for bool {
    fn numbers_of(column: DynamicColumn) -> Option<NumColumn<bool>> {
        column.into_bool()
    }
}

impl FromDynamic for DateTime {
    fn numbers_of(column: DynamicColumn) -> Option<NumColumn<DateTime>> {
        let column = column.into_datetime()?;
        column.values_are_counted();
        column.values().values_are_in_type();
        Some(column)
    }
}

impl<T: FromDynamic> SegmentValues for NumValues<T> {
    ghost kind = { T.kind };

    ghost count = { λ v. length (num_values_of v) };

    ghost content = { λ s v. content_seen [] T.cell s (num_values_of v) };

    fn parts_of(column: DynamicColumn) -> Option<(ColumnIndex, NumValues<T>)> {
        let column = T::numbers_of(column)?;
        Some(column.into_parts())
    }

    fn no_values() -> NumValues<T> {
        NumValues::Empty(EmptyColumnValues)
    }
}

impl SegmentValues for IpValues {
    ghost kind = { types.ip };

    ghost count = { λ v. length (ip_values_of v) };

    ghost content = { λ s v. content_seen [] unsigned_cell s (ip_values_of v) };

    fn parts_of(column: DynamicColumn) -> Option<(ColumnIndex, IpValues)> {
        let column = column.into_ip_addr()?;
        Some(address_parts(column))
    }

    fn no_values() -> IpValues {
        IpValues::Empty(EmptyColumnValues)
    }
}

// The index and the values of a column of addresses, none of which is above the greatest.
fn address_parts(column: IpColumn) -> (ColumnIndex, IpValues)
    ensures read { is_read_as types.ip (columns.IpAddr column) ≡ true }
    ensures part { let c = columns.IpAddr column in
        IsPart (λ v. length (ip_values_of v))
        (λ s v. content_seen [] unsigned_cell s (ip_values_of v))
        (row_count (dynamic_shape c) (value_count c)) (Some c) (shape_of result.0) result.1 }
{
    column.values_are_counted();
    // That the greatest address has 128 bits is known of its bits, and so of each address.
    let _greatest = column.max_value().to_bits();
    column.into_parts()
}

/// The indexes and the values of segments, of the columns whose flags are set: an Empty index
/// without values for another segment. It takes these columns. CannotCoerce comes exactly where one
/// of them isn't of the type.
pub fn segment_numbers<T: FromDynamic>(
    alloc: Global,
    columns: &mut [Option<DynamicColumn>],
    kept: &[bool],
    merge_row_order: &MergeRowOrder,
) -> Result<(Vec<ColumnIndex>, Vec<NumValues<T>>), ColumnarError>
    requires rows { HaveRows (counts_of (order_of merge_row_order.now)) columns.old }
    requires flags { length kept.now ≡ length columns.old }
    ensures ok { IfOk result (λ r. AreSegmentColumns T.kind T.cell
        (counts_of (order_of merge_row_order.now)) (where_set columns.old kept.now)
        (columns_by (map shape_of r.0.items) (map num_values_of r.1.items))) }
    ensures err { IfErr result (IsRefusedFor T.kind (kept_of columns.old kept.now)) }
    ensures taken { TakesKept (is_read_as T.kind) columns.old kept.now columns.new result }
{
    segment_parts::<NumValues<T>>(alloc, columns, kept, merge_row_order)
}

/// The same of columns of addresses.
pub fn segment_addresses(
    alloc: Global,
    columns: &mut [Option<DynamicColumn>],
    kept: &[bool],
    merge_row_order: &MergeRowOrder,
) -> Result<(Vec<ColumnIndex>, Vec<IpValues>), ColumnarError>
    requires rows { HaveRows (counts_of (order_of merge_row_order.now)) columns.old }
    requires flags { length kept.now ≡ length columns.old }
    ensures ok { IfOk result (λ r. AreSegmentColumns types.ip unsigned_cell
        (counts_of (order_of merge_row_order.now)) (where_set columns.old kept.now)
        (columns_by (map shape_of r.0.items) (map ip_values_of r.1.items))) }
    ensures err { IfErr result (IsRefusedFor types.ip (kept_of columns.old kept.now)) }
    ensures taken { TakesKept (is_read_as types.ip) columns.old kept.now columns.new result }
{
    segment_parts::<IpValues>(alloc, columns, kept, merge_row_order)
}
