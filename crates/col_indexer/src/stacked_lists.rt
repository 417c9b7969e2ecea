//! The lists of indexes one behind another, in memory.
ghost use Rattle.std.specs.Prelude.{◌≡◌, ◌<◌, ◌^◌, ◌+◌, ◌++◌, length, map, sum, IfOk, OnOk};
ghost use Rattle.std.specs.List.{range_with_len, AllByRecursion};
ghost use Rattle.col_model.specs.Positions.{rows_with_value, starts_of};
ghost use Rattle.col_numbers.specs.Readers.{list_of};
ghost use Rattle.col_index.specs.Indexes.{shape_of};
ghost use Rattle.col_index.specs.MultiValues.{value_counts_of};
ghost use Rattle.col_index.specs.Offsets.{changes_behind};
ghost use Rattle.col_indexer.specs.Counted.{counts_in, rows_behind, ends_behind};
ghost use Rattle.col_indexer.specs.Stacks.{AreSegments, index_segments, stacked_counts};

use crate::stacked::{last_start, max_starts, num_values, row_at};
use col_common::{DocId, RowId};
use col_index::{ColumnIndex, MultiValueIndex};
use col_numbers::U64Values;
use col_order::StackMergeOrder;
use col_values::ColumnValues;
use std::alloc::{AllocError, Global};

// Appends the rows with a value of a segment, behind so many rows.
fn push_rows(
    rows: &mut Vec<RowId>,
    column_index: &ColumnIndex,
    num_rows: RowId,
    before: u64,
) -> Result<(), AllocError>
    requires { before + length (counts_in num_rows (shape_of column_index.now)) < 2 ^ 32 }
    ensures { OnOk result (rows.new.items ≡ rows.old.items
        ++ rows_behind before (counts_in num_rows (shape_of column_index.now))) }
{
    let mut place = 0u64;
    let mut from: DocId = 0;
    while let Some(row) = row_at(column_index, num_rows, place, from) {
        rows.push((before + u64::from(row)) as RowId)?;
        place += 1;
        from = row + 1;
    }
    Ok(())
}

/// The rows with a value of indexes one behind another, in memory.
pub(crate) fn collected_rows(
    alloc: Global,
    column_indexes: &[ColumnIndex],
    order: &StackMergeOrder,
) -> Result<Vec<RowId>, AllocError>
    requires segments { AreSegments (index_segments column_indexes.now order.now) }
    ensures { IfOk result (λ v. v.items
        ≡ rows_with_value (stacked_counts (index_segments column_indexes.now order.now))) }
{
    let capacity = max_rows(column_indexes, order) as usize;
    let mut rows = Vec::with_capacity(alloc, capacity)?;
    let mut before = 0u64;
    for segment in 0..order.num_segments() {
        let num_rows = order.segment_num_rows(segment);
        push_rows(&mut rows, &column_indexes[segment], num_rows, before)?;
        before += u64::from(num_rows);
    }
    Ok(rows)
}

// Appends where the values of each row with a value of a segment end, behind so many values.
fn push_ends(
    starts: &mut Vec<RowId>,
    column_index: &ColumnIndex,
    num_rows: RowId,
    before: u64,
) -> Result<(), AllocError>
    requires { before + sum (counts_in num_rows (shape_of column_index.now)) < 2 ^ 32 }
    ensures { OnOk result (starts.new.items ≡ starts.old.items
        ++ ends_behind before (counts_in num_rows (shape_of column_index.now))) }
{
    match column_index {
        ColumnIndex::Empty { .. } => Ok(()),
        ColumnIndex::Full => push_numbers(starts, before, num_rows),
        ColumnIndex::Optional(index) => {
            index.rows_rise();
            push_numbers(starts, before, index.num_non_nulls())
        }
        ColumnIndex::Multivalued(index) => push_later_starts(starts, index, before),
    }
}

// Appends so many numbers behind a number.
fn push_numbers(starts: &mut Vec<RowId>, before: u64, count: RowId) -> Result<(), AllocError>
    requires { before + count < 2 ^ 32 }
    ensures { OnOk result (starts.new.items
        ≡ starts.old.items ++ range_with_len (before + 1) count) }
{
    for number in 0..count {
        starts.push((before + u64::from(number) + 1) as RowId)?;
    }
    Ok(())
}

// Appends the start offsets of an index but the first, behind so many values.
fn push_later_starts(
    starts: &mut Vec<RowId>,
    index: &MultiValueIndex,
    before: u64,
) -> Result<(), AllocError>
    requires { before + sum (value_counts_of index.now) < 2 ^ 32 }
    ensures { OnOk result (starts.new.items
        ≡ starts.old.items ++ ends_behind before (value_counts_of index.now)) }
{
    push_changes(starts, index.get_start_index_column(), before)
}

// Appends each offset that isn't the one before it, the first where it isn't 0, behind so many
// values.
fn push_changes(starts: &mut Vec<RowId>, offsets: &U64Values, before: u64) -> Result<(), AllocError>
    requires { AllByRecursion (λ offset. before + offset < 2 ^ 32) (list_of offsets.now) }
    ensures { let later = changes_behind 0 (list_of offsets.now) in
        OnOk result (starts.new.items
        ≡ starts.old.items ++ map (λ offset. before + offset) later) }
{
    let mut last = 0;
    for at in 0..offsets.num_vals() {
        let offset = offsets.get_val(at);
        if offset == last {
            continue;
        }
        starts.push((before + offset) as RowId)?;
        last = offset;
    }
    Ok(())
}

/// The start offsets of an index, in memory.
pub(crate) fn starts_of_index(
    alloc: Global,
    index: &MultiValueIndex,
) -> Result<Vec<RowId>, AllocError>
    ensures { IfOk result (λ v. v.items ≡ starts_of (value_counts_of index.now)) }
{
    // 32 bits count the values.
    let _num_values = last_start(index);
    let mut starts = Vec::with_capacity(alloc, max_starts(index) as usize)?;
    starts.push(0)?;
    push_later_starts(&mut starts, index, 0)?;
    Ok(starts)
}

/// The start offsets of indexes one behind another, in memory.
pub(crate) fn collected_starts(
    alloc: Global,
    column_indexes: &[ColumnIndex],
    order: &StackMergeOrder,
) -> Result<Vec<RowId>, AllocError>
    requires segments { AreSegments (index_segments column_indexes.now order.now) }
    ensures { IfOk result (λ v. v.items
        ≡ starts_of (stacked_counts (index_segments column_indexes.now order.now))) }
{
    let capacity = max_rows(column_indexes, order).saturating_add(1);
    let mut starts = Vec::with_capacity(alloc, capacity as usize)?;
    starts.push(0)?;
    let mut before = 0u64;
    for segment in 0..order.num_segments() {
        let num_rows = order.segment_num_rows(segment);
        let column_index = &column_indexes[segment];
        push_ends(&mut starts, column_index, num_rows, before)?;
        before += u64::from(num_values(column_index, num_rows));
    }
    Ok(starts)
}

// Rows with a value of indexes are at most so many: rows of a segment that is full, and those that
// are listed of another one.
fn max_rows(column_indexes: &[ColumnIndex], order: &StackMergeOrder) -> RowId
    requires { AreSegments (index_segments column_indexes.now order.now) }
{
    let mut sum: RowId = 0;
    for segment in 0..order.num_segments() {
        let more = match &column_indexes[segment] {
            ColumnIndex::Empty { .. } => 0,
            ColumnIndex::Full => order.segment_num_rows(segment),
            ColumnIndex::Optional(index) => index.num_non_nulls(),
            ColumnIndex::Multivalued(index) => max_starts(index),
        };
        sum = sum.saturating_add(more);
    }
    sum.min(order.num_rows())
}
