//! Joins columns of numbers, times and flags.
ghost use Rattle.std.specs.Prelude.{◌≡◌, map, length};
ghost use Rattle.std.specs.List.{All, AllByRecursion};
ghost use Rattle.col_order.specs.Orders.{picks_of};
ghost use Rattle.col_order.specs.RowOrders.{order_of};
ghost use Rattle.col_values.specs.Monotonic.{Passes};
ghost use Rattle.col_index.specs.Indexes.{shape_of};
ghost use Rattle.col_numbers.specs.NumValues.{num_values_of};
ghost use Rattle.col_indexer.specs.Written.{index_of};
ghost use Rattle.col_merge_values.specs.Merges.{IsMerge};
ghost use Rattle.col_merge_column.specs.Limits.{HasNoCodes, IsMergedWithin};
ghost use Rattle.col_merge_column.specs.Joins.{number_merge, picked_content, JoinsColumn};

use crate::merged_index::index_within_limits;
use col_common::{ColumnarError, Sink};
use col_index::ColumnIndex;
use col_merge_values::{MergedColumnValues, serialize_merged_u64};
use col_numbers::NumValues;
use col_order::{MergeRowOrder, orders_are_picks};
use col_types::StoredAsU64;
use std::alloc::Global;

/// Writes the column of the rows that an order picks from columns: an index and a list for each
/// segment.
pub fn join_numbers<T, K>(
    alloc: Global,
    column_indexes: &[ColumnIndex],
    column_values: &[NumValues<T>],
    merge_row_order: &MergeRowOrder,
    sink: &mut K,
) -> Result<(), ColumnarError>
where
    T: StoredAsU64,
    K: Sink,
    requires columns { IsMerge
        (number_merge column_indexes.now column_values.now merge_row_order.now) }
    requires codes { HasNoCodes T.kind }
    ensures { JoinsColumn (K.seen sink.old) (K.seen sink.new) result T.kind
        (length (picks_of (order_of merge_row_order.now))) (picked_content T.cell
        (number_merge column_indexes.now column_values.now merge_row_order.now)) }
{
    orders_are_picks(merge_row_order);
    values_are_told(column_values);
    let Some(index) = index_within_limits(column_indexes, merge_row_order) else {
        return Err(ColumnarError::TooLarge);
    };
    let values = MergedColumnValues::new(column_indexes, column_values, merge_row_order);
    serialize_merged_u64(alloc, index, &values, sink)
}

// Each value is one of its type.
fn values_are_told<T: StoredAsU64>(column_values: &[NumValues<T>])
    ensures { AllByRecursion (λ v. All (Passes T.in_type) (num_values_of v)) column_values.now }
{
    for values in column_values {
        values.values_are_in_type();
    }
}
