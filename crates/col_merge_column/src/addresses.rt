//! Joins columns of addresses.
ghost use Rattle.std.specs.Prelude.{◌≡◌, map, length};
ghost use Rattle.col_model.specs.ColumnType as types;
ghost use Rattle.col_order.specs.Orders.{picks_of};
ghost use Rattle.col_order.specs.RowOrders.{order_of};
ghost use Rattle.col_types.specs.Cells.{unsigned_cell};
ghost use Rattle.col_index.specs.Indexes.{shape_of};
ghost use Rattle.col_column.specs.IpValues.{ip_values_of};
ghost use Rattle.col_merge_values.specs.Merges.{IsMerge};
ghost use Rattle.col_merge_column.specs.Joins.{address_merge, picked_content, JoinsColumn};

use crate::merged_index::index_within_limits;
use col_column::IpValues;
use col_common::{ColumnarError, Sink};
use col_index::ColumnIndex;
use col_merge_values::{MergedColumnValues, serialize_collected_u128};
use col_order::{MergeRowOrder, orders_are_picks};
use std::alloc::Global;

/// Writes the column of the rows that an order picks from columns of addresses: an index and a list
/// for each segment. Where the addresses need more codes than 32 bits count, the index may have
/// been written when it answers TooLarge.
pub fn join_addresses<K: Sink>(
    alloc: Global,
    column_indexes: &[ColumnIndex],
    column_values: &[IpValues],
    merge_row_order: &MergeRowOrder,
    sink: &mut K,
) -> Result<(), ColumnarError>
    requires { IsMerge (address_merge column_indexes.now column_values.now merge_row_order.now) }
    ensures { JoinsColumn (K.seen sink.old) (K.seen sink.new) result types.ip
        (length (picks_of (order_of merge_row_order.now))) (picked_content unsigned_cell
        (address_merge column_indexes.now column_values.now merge_row_order.now)) }
{
    orders_are_picks(merge_row_order);
    let Some(index) = index_within_limits(column_indexes, merge_row_order) else {
        return Err(ColumnarError::TooLarge);
    };
    let values = MergedColumnValues::new(column_indexes, column_values, merge_row_order);
    serialize_collected_u128(alloc, index, &values, sink)
}
