//! The columns of segments that are kept, taken apart: an index and values for each segment.
ghost use Rattle.std.specs.Prelude.{◌≡◌, ℕ, ◌++◌, ◌∷◌, [], map, length, is_some, if◌then◌else◌, Some, None, OnOk, IfOk, IfErr, IfSome};
ghost use Rattle.col_model.specs.ColumnType.{ColumnType};
ghost use Rattle.col_model.specs.Index.{Shape, empty_shape};
ghost use Rattle.col_model.specs.Table.{Content};
ghost use Rattle.col_column.specs.Columns.{row_count};
ghost use Rattle.col_dynamic.specs.Dynamic.{dynamic_shape, value_count};
ghost use Rattle.col_order.specs.Orders.{counts_of};
ghost use Rattle.col_order.specs.RowOrders.{order_of};
ghost use Rattle.col_index.specs.Indexes.{shape_of};
ghost use Rattle.col_merge_slot.specs.Segments.{where_set, kept_of, HaveRows, is_read_as, is_none_or, IsPart, AreParts, IsRefusedFor};
ghost use Rattle.col_merge_slot.specs.Taken.{TakesKept};

use col_common::{ColumnarError, RowId};
use col_dynamic::DynamicColumn;
use col_index::ColumnIndex;
use col_order::MergeRowOrder;
use std::alloc::{AllocError, Global};

/// Values that columns of any type may be read as.
pub trait SegmentValues: Drop {
    /// The type of the columns.
    ghost kind: { ColumnType };

    /// How many values there are.
    ghost count: { Self → ℕ };

    /// What stands in a column of an index of a shape and these values.
    ghost content: { Shape → Self → Content };

    /// The index and the values of a column, where each of its cells is of the type.
    fn parts_of(column: DynamicColumn) -> Option<(ColumnIndex, Self)>
        ensures read { is_some result ≡ is_read_as kind column }
        ensures part { IfSome result (λ p. IsPart count content
            (row_count (dynamic_shape column) (value_count column)) (Some column)
            (shape_of p.0) p.1) };

    /// No values.
    fn no_values() -> Self
        ensures { count result ≡ 0 };
}

/// The index and the values of each segment, which are taken out of the columns whose flags are
/// set; an Empty index without values for another segment. CannotCoerce comes exactly where a
/// column that is taken isn't of the type.
pub fn segment_parts<V: SegmentValues>(
    alloc: Global,
    columns: &mut [Option<DynamicColumn>],
    kept: &[bool],
    merge_row_order: &MergeRowOrder,
) -> Result<(Vec<ColumnIndex>, Vec<V>), ColumnarError>
    requires rows { HaveRows (counts_of (order_of merge_row_order.now)) columns.old }
    requires flags { length kept.now ≡ length columns.old }
    ensures ok { IfOk result (λ r. AreParts V.kind V.count V.content
        (counts_of (order_of merge_row_order.now)) (where_set columns.old kept.now)
        (map shape_of r.0.items) r.1.items) }
    ensures err { IfErr result (IsRefusedFor V.kind (kept_of columns.old kept.now)) }
    ensures taken { TakesKept (is_read_as V.kind) columns.old kept.now columns.new result }
{
    let mut indexes = Vec::with_capacity(alloc, columns.len())?;
    let mut values = Vec::with_capacity(alloc, columns.len())?;
    for segment in 0..columns.len() {
        let num_rows = merge_row_order.segment_num_rows(segment);
        let Some(part) = part_at::<V>(&mut columns[segment], kept[segment], num_rows) else {
            return Err(ColumnarError::CannotCoerce);
        };
        push_part(&mut indexes, &mut values, part)?;
    }
    Ok((indexes, values))
}

// The index and the values of a segment of so many rows, which are taken out of the column where it
// is kept.
fn part_at<V: SegmentValues>(
    column: &mut Option<DynamicColumn>,
    is_kept: bool,
    num_rows: RowId,
) -> Option<(ColumnIndex, V)>
    requires { IfSome column.old
        (λ c. row_count (dynamic_shape c) (value_count c) ≡ num_rows) }
    ensures read { is_some result
        ≡ is_none_or (is_read_as V.kind) (if is_kept then column.old else None) }
    ensures part { IfSome result (λ p. IsPart V.count V.content num_rows
        (if is_kept then column.old else None) (shape_of p.0) p.1) }
    ensures taken { column.new ≡ (if is_kept then None else column.old) }
{
    if !is_kept {
        return Some(no_part(num_rows));
    }
    match column.take() {
        Some(column) => V::parts_of(column),
        None => Some(no_part(num_rows)),
    }
}

// Rows without a value.
fn no_part<V: SegmentValues>(num_docs: RowId) -> (ColumnIndex, V)
    ensures { IsPart V.count V.content num_docs None (shape_of result.0) result.1 }
{
    (ColumnIndex::Empty { num_docs }, V::no_values())
}

// One segment more.
fn push_part<V: Drop>(
    indexes: &mut Vec<ColumnIndex>,
    values: &mut Vec<V>,
    part: (ColumnIndex, V),
) -> Result<(), AllocError>
    ensures index { OnOk result (indexes.new.items ≡ indexes.old.items ++ part.0 ∷ []) }
    ensures values { OnOk result (values.new.items ≡ values.old.items ++ part.1 ∷ []) }
{
    indexes.push(part.0)?;
    values.push(part.1)?;
    Ok(())
}
