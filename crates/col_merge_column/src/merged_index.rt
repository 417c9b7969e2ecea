//! The index of a joined column, within the limits.
ghost use Rattle.std.specs.Prelude.{◌≡◌, not, map, is_some, IfSome};
ghost use Rattle.col_order.specs.Orders.{counts_of};
ghost use Rattle.col_order.specs.RowOrders.{order_of};
ghost use Rattle.col_index.specs.Indexes.{shape_of};
ghost use Rattle.col_indexer.specs.Merged.{FitSegments};
ghost use Rattle.col_indexer.specs.Written.{index_of};
ghost use Rattle.col_merge_column.specs.Limits.{is_past_limits, IsMergedWithin};

use crate::cell_counts::has_many_cells;
use col_index::ColumnIndex;
use col_indexer::{SerializableColumnIndex, merge_column_index};
use col_order::MergeRowOrder;

/// The index of the rows that an order picks from indexes; none where they have more values, or it
/// has more rows with a value, than may be.
pub(crate) fn index_within_limits<'a>(
    column_indexes: &'a [ColumnIndex],
    merge_row_order: &'a MergeRowOrder,
) -> Option<SerializableColumnIndex<'a>>
    requires { FitSegments (counts_of (order_of merge_row_order.now))
        (map shape_of column_indexes.now) }
    ensures some { is_some result ≡ not
        (is_past_limits (order_of merge_row_order.now) (map shape_of column_indexes.now)) }
    ensures index { IfSome result (λ i. IsMergedWithin (order_of merge_row_order.now)
        (map shape_of column_indexes.now) (index_of i)) }
{
    if has_many_cells(column_indexes, merge_row_order) {
        return None;
    }
    let index = merge_column_index(column_indexes, merge_row_order);
    if index.is_past_limit() {
        return None;
    }
    Some(index)
}
