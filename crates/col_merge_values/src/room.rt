//! Room for picked values, before they are walked.
ghost use Rattle.col_order.specs.Orders.{counts_of};
ghost use Rattle.col_order.specs.RowOrders.{order_of};
ghost use Rattle.col_merge_values.specs.Merges.{AreColumns};

use crate::segments::Segments;
use col_order::{MergeRowOrder, ShuffleMergeOrder};

// A row that is named has room for at most so many values, however many the others have.
const MAX_VALUES_PER_ROW: usize = 8;

/// Room for the values that an order picks: for all of a stack, and for those of a shuffle's rows
/// if they have no more than the others. A list in it grows where they do.
pub(crate) fn room_for_values<T: Copy, S: Segments<T>>(segments: &S, order: &MergeRowOrder) -> usize
    requires { AreColumns (counts_of (order_of order.now)) (S.columns segments.now) }
{
    let num_vals = num_vals_in_all(segments, order);
    match order {
        MergeRowOrder::Stack(_) => num_vals,
        MergeRowOrder::Shuffled(order) => num_vals.min(room_for_rows(order, num_vals)),
    }
}

// How many values all segments have, as far as memory reaches.
fn num_vals_in_all<T: Copy, S: Segments<T>>(segments: &S, order: &MergeRowOrder) -> usize
    requires { AreColumns (counts_of (order_of order.now)) (S.columns segments.now) }
{
    let mut num_vals = 0usize;
    for segment in 0..order.num_segments() {
        num_vals = num_vals.saturating_add(segments.num_vals(segment) as usize);
    }
    num_vals
}

// Room for the values of the rows that are named, of segments with so many values.
fn room_for_rows(order: &ShuffleMergeOrder, num_vals: usize) -> usize {
    let mut num_rows = 0usize;
    for segment in 0..order.num_segments() {
        num_rows = num_rows.saturating_add(order.segment_num_rows(segment) as usize);
    }
    let values_per_row = values_per_row(num_vals, num_rows).min(MAX_VALUES_PER_ROW);
    values_per_row.saturating_mul(order.num_rows() as usize)
}

// How many values a row has on average, rounded up.
fn values_per_row(num_vals: usize, num_rows: usize) -> usize {
    if num_rows == 0 {
        return 0;
    }
    num_vals.div_ceil(num_rows)
}
