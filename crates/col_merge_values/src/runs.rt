//! A walk over the values that an order picks, run by run: a run is what stands together in a
//! segment, all its values in a stack, those of a picked row in a shuffle.
ghost use Rattle.std.specs.Prelude.{◌≡◌, ◌<◌, ◌≤◌, ◌++◌, length, slice_range, true, IfOk, OnOk};
ghost use Rattle.col_common.specs.Walks.{IsNext};
ghost use Rattle.col_model.specs.Order.{stack, shuffle, has_row};
ghost use Rattle.col_model.specs.U64List.{joined_lists};
ghost use Rattle.col_order.specs.Orders.{counts_of, address_of};
ghost use Rattle.col_order.specs.RowOrders.{order_of};
ghost use Rattle.col_column.specs.Columns.{AreOf};
ghost use Rattle.col_merge_values.specs.Merges.{AreColumns, segment_values, picked_row, merge_of};
ghost use Rattle.col_merge_values.specs.Merges.{StandsInRun, values_to_give, Finds};
ghost use Rattle.col_merge_values.specs.Merges.{values_of, runs_by, merged_rows};

use crate::room::room_for_values;
use crate::segments::Segments;
use col_common::{RowAddr, RowId, Walk};
use col_order::{MergeRowOrder, ShuffleMergeOrder, StackMergeOrder};
use std::alloc::{AllocError, Global};
use std::ops::Range;

/// The next value that an order picks, from a walk.
#[inline(always)]
pub(crate) fn next_value<T: Copy, S: Segments<T>>(
    segments: &S,
    order: &MergeRowOrder,
    at: &mut Walk,
) -> Option<T>
    requires columns { AreColumns (counts_of (order_of order.now)) (S.columns segments.now) }
    requires stands { StandsInRun (S.columns segments.now) at.old }
    ensures stands { StandsInRun (S.columns segments.now) at.new }
    ensures value { let m = merge_of (S.columns segments.now) (order_of order.now) in
        IsNext (values_to_give m at.old) result (values_to_give m at.new) }
{
    if !find_value(segments, order, at) {
        return None;
    }
    let idx = at.inner;
    at.inner = idx + 1;
    Some(segments.get_val(at.segment as usize, idx as u32))
}

// Moves to a run with a value where none is left of this one; whether there is one.
#[inline(always)]
fn find_value<T: Copy, S: Segments<T>>(segments: &S, order: &MergeRowOrder, at: &mut Walk) -> bool
    requires columns { AreColumns (counts_of (order_of order.now)) (S.columns segments.now) }
    requires stands { StandsInRun (S.columns segments.now) at.old }
    ensures { Finds (merge_of (S.columns segments.now) (order_of order.now)) at.old at.new result }
{
    if at.inner < at.sum {
        return true;
    }
    match order {
        MergeRowOrder::Stack(order) => find_segment(segments, order, at),
        MergeRowOrder::Shuffled(order) => find_row(segments, order, at),
    }
}

// Moves to the next segment with a value.
fn find_segment<T: Copy, S: Segments<T>>(
    segments: &S,
    order: &StackMergeOrder,
    at: &mut Walk,
) -> bool
    requires columns { AreColumns order.now (S.columns segments.now) }
    requires stands { StandsInRun (S.columns segments.now) at.old }
    requires given { at.old.inner ≡ at.old.sum }
    ensures { Finds (merge_of (S.columns segments.now) (stack order.now)) at.old at.new result }
{
    let num_segments = order.num_segments() as u64;
    while at.place < num_segments {
        let segment = at.place;
        let num_vals = segments.num_vals(segment as usize);
        at.place = segment + 1;
        if num_vals != 0 {
            at.segment = segment;
            at.inner = 0;
            at.sum = u64::from(num_vals);
            return true;
        }
    }
    false
}

// Moves to the next row with a value.
fn find_row<T: Copy, S: Segments<T>>(segments: &S, order: &ShuffleMergeOrder, at: &mut Walk) -> bool
    requires columns { AreColumns order.now.counts (S.columns segments.now) }
    requires stands { StandsInRun (S.columns segments.now) at.old }
    requires given { at.old.inner ≡ at.old.sum }
    ensures { let picked = shuffle order.now.counts order.now.addresses in
        Finds (merge_of (S.columns segments.now) picked) at.old at.new result }
{
    order.rows_are_there();
    let num_rows = u64::from(order.num_rows());
    while at.place < num_rows {
        let addr = order.row_addr(at.place as RowId);
        let row_ids = value_row_ids(segments, order, addr);
        at.place += 1;
        if row_ids.start != row_ids.end {
            at.segment = u64::from(addr.segment_ord);
            at.inner = u64::from(row_ids.start);
            at.sum = u64::from(row_ids.end);
            return true;
        }
    }
    false
}

/// The positions of the values of the row that an address names.
#[inline(always)]
pub(crate) fn value_row_ids<T: Copy, S: Segments<T>>(
    segments: &S,
    order: &ShuffleMergeOrder,
    addr: RowAddr,
) -> Range<RowId>
    requires columns { AreColumns order.now.counts (S.columns segments.now) }
    requires there { has_row order.now.counts (address_of addr) ≡ true }
    ensures { let columns = S.columns segments.now in
        AreOf (segment_values columns addr.segment_ord) (result.start, result.end)
        (picked_row columns (address_of addr)) }
{
    let segment = addr.segment_ord as usize;
    // That a segment has fewer than 2 ^ 32 rows is known of their count.
    let _num_rows = order.segment_num_rows(segment);
    segments.value_row_ids(segment, addr.row_id)
}

/// The values that an order picks, in memory.
pub(crate) fn picked_values<T: Copy, S: Segments<T>>(
    alloc: Global,
    segments: &S,
    order: &MergeRowOrder,
) -> Result<Vec<T>, AllocError>
    requires columns { AreColumns (counts_of (order_of order.now)) (S.columns segments.now) }
    ensures { IfOk result (λ v. v.items
        ≡ values_of (merge_of (S.columns segments.now) (order_of order.now))) }
{
    let mut values = Vec::with_capacity(alloc, room_for_values(segments, order))?;
    append_picked(segments, order, &mut values)?;
    Ok(values)
}

// Appends the values that an order picks.
fn append_picked<T: Copy, S: Segments<T>>(
    segments: &S,
    order: &MergeRowOrder,
    values: &mut Vec<T>,
) -> Result<(), AllocError>
    requires { AreColumns (counts_of (order_of order.now)) (S.columns segments.now) }
    ensures { OnOk result (values.new.items ≡ values.old.items
        ++ joined_lists (runs_by (S.columns segments.now) (order_of order.now))) }
{
    match order {
        MergeRowOrder::Stack(order) => append_segments(segments, order, values),
        MergeRowOrder::Shuffled(order) => append_rows(segments, order, values),
    }
}

// Appends the values of all segments.
fn append_segments<T: Copy, S: Segments<T>>(
    segments: &S,
    order: &StackMergeOrder,
    values: &mut Vec<T>,
) -> Result<(), AllocError>
    requires { AreColumns order.now (S.columns segments.now) }
    ensures { OnOk result (values.new.items ≡ values.old.items
        ++ joined_lists (S.columns segments.now).lists) }
{
    for segment in 0..order.num_segments() {
        segments.append_segment(segment, values)?;
    }
    Ok(())
}

// Appends the values of the rows that are named.
fn append_rows<T: Copy, S: Segments<T>>(
    segments: &S,
    order: &ShuffleMergeOrder,
    values: &mut Vec<T>,
) -> Result<(), AllocError>
    requires { AreColumns order.now.counts (S.columns segments.now) }
    ensures { OnOk result (values.new.items ≡ values.old.items
        ++ joined_lists (merged_rows (S.columns segments.now) order.now.addresses)) }
{
    order.rows_are_there();
    for row in 0..order.num_rows() {
        let addr = order.row_addr(row);
        let row_ids = value_row_ids(segments, order, addr);
        let segment = addr.segment_ord as usize;
        append_run(segments, segment, row_ids.start, row_ids.end, values)?;
    }
    Ok(())
}

/// Appends the values of a segment from a position on, up to another one.
#[inline(always)]
pub(crate) fn append_run<T: Copy, S: Segments<T>>(
    segments: &S,
    segment: usize,
    start: RowId,
    end: RowId,
    values: &mut Vec<T>,
) -> Result<(), AllocError>
    requires segment { segment < length (S.columns segments.now).lists }
    requires order { start ≤ end }
    requires within { end ≤ length (segment_values (S.columns segments.now) segment) }
    ensures { OnOk result (values.new.items ≡ values.old.items
        ++ slice_range (segment_values (S.columns segments.now) segment) start end) }
{
    for idx in start..end {
        values.push(segments.get_val(segment, idx))?;
    }
    Ok(())
}
