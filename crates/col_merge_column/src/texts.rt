//! Joins columns of terms.
ghost use Rattle.std.specs.Prelude.{◌≡◌, true, map, length, IfOk};
ghost use Rattle.std.specs.List.{AllByRecursion};
ghost use Rattle.col_model.specs.ColumnType.{ColumnType, has_terms};
ghost use Rattle.col_order.specs.Orders.{picks_of};
ghost use Rattle.col_order.specs.RowOrders.{order_of};
ghost use Rattle.col_index.specs.Indexes.{shape_of};
ghost use Rattle.col_merge_texts.specs.Merged.{FitTexts, shapes_of, merged_content};
ghost use Rattle.col_merge_texts.specs.Taking.{AreTold};
ghost use Rattle.col_merge_column.specs.Joins.{JoinsColumn};

use crate::merged_index::index_within_limits;
use col_common::{ColumnarError, Sink};
use col_index::ColumnIndex;
use col_merge_texts::{merge_bytes_or_str_column, ordinals_are_told};
use col_order::{MergeRowOrder, orders_are_picks};
use col_text::BytesColumn;
use std::alloc::{AllocError, Global};

/// Writes the column of the rows that an order picks from columns of terms, one for each segment.
pub fn join_texts<K: Sink>(
    alloc: Global,
    bytes_columns: &[BytesColumn],
    merge_row_order: &MergeRowOrder,
    sink: &mut K,
) -> Result<(), ColumnarError>
    requires { FitTexts (order_of merge_row_order.now) bytes_columns.now }
    ensures { let order = order_of merge_row_order.now in
        (t : ColumnType) → has_terms t ≡ true →
        JoinsColumn (K.seen sink.old) (K.seen sink.new) result t (length (picks_of order))
        (merged_content bytes_columns.now order) }
{
    ordinals_are_told(bytes_columns);
    let column_indexes = indexes_of(alloc, bytes_columns)?;
    join_behind(alloc, &column_indexes, bytes_columns, merge_row_order, sink)
}

// The indexes of the columns, once more.
fn indexes_of(alloc: Global, bytes_columns: &[BytesColumn]) -> Result<Vec<ColumnIndex>, AllocError>
    ensures { IfOk result (λ v. map shape_of v.items ≡ shapes_of bytes_columns.now) }
{
    let mut indexes = Vec::with_capacity(alloc, bytes_columns.len())?;
    for column in bytes_columns {
        indexes.push(column_index_of(alloc, column)?)?;
    }
    Ok(indexes)
}

// The index of a column, once more.
fn column_index_of(alloc: Global, column: &BytesColumn) -> Result<ColumnIndex, AllocError>
    ensures { IfOk result (λ index. shape_of index ≡ column.now.ords.shape) }
{
    match column.ords().index().try_clone(alloc) {
        Ok(index) => Ok(index),
        // Memory alone can be wanting.
        Err(_) => Err(AllocError),
    }
}

// Writes the column behind the index that is merged of these.
fn join_behind<K: Sink>(
    alloc: Global,
    column_indexes: &[ColumnIndex],
    bytes_columns: &[BytesColumn],
    merge_row_order: &MergeRowOrder,
    sink: &mut K,
) -> Result<(), ColumnarError>
    requires segments { FitTexts (order_of merge_row_order.now) bytes_columns.now }
    requires told { AllByRecursion AreTold bytes_columns.now }
    requires shapes { map shape_of column_indexes.now ≡ shapes_of bytes_columns.now }
    ensures { let order = order_of merge_row_order.now in
        (t : ColumnType) → has_terms t ≡ true →
        JoinsColumn (K.seen sink.old) (K.seen sink.new) result t (length (picks_of order))
        (merged_content bytes_columns.now order) }
{
    orders_are_picks(merge_row_order);
    let Some(index) = index_within_limits(column_indexes, merge_row_order) else {
        return Err(ColumnarError::TooLarge);
    };
    merge_bytes_or_str_column(alloc, index, bytes_columns, merge_row_order, sink)
}
