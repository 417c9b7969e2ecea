//! How many values the rows have that an order picks.
ghost use Rattle.std.specs.Prelude.{◌≡◌, ◌^◌, ◌<◌, true, map, length, sum, nat_le, slice_index_or};
ghost use Rattle.col_model.specs.Index.{empty_shape};
ghost use Rattle.col_model.specs.Order.{stack, shuffle};
ghost use Rattle.col_model.specs.Positions.{count_in};
ghost use Rattle.col_order.specs.Orders.{counts_of};
ghost use Rattle.col_order.specs.RowOrders.{order_of};
ghost use Rattle.col_index.specs.Indexes.{shape_of};
ghost use Rattle.col_numbers.specs.Readers.{list_of};
ghost use Rattle.col_indexer.specs.Counted.{counts_in};
ghost use Rattle.col_indexer.specs.Merged.{is_over, FitSegments};
ghost use Rattle.col_merge_column.specs.Limits.{counts_picked, StepsAtMost, HasAtMost, HaveAtMost};

use col_common::{RowAddr, RowId};
use col_index::ColumnIndex;
use col_numbers::U64Values;
use col_order::{MergeRowOrder, ShuffleMergeOrder, StackMergeOrder};
use col_values::ColumnValues;

/// Whether the rows that an order picks from indexes have more values than 32 bits count.
pub(crate) fn has_many_cells(
    column_indexes: &[ColumnIndex],
    merge_row_order: &MergeRowOrder,
) -> bool
    requires { FitSegments (counts_of (order_of merge_row_order.now))
        (map shape_of column_indexes.now) }
    ensures { result ≡ nat_le (2 ^ 32)
        (sum (counts_picked (order_of merge_row_order.now) (map shape_of column_indexes.now))) }
{
    match merge_row_order {
        MergeRowOrder::Stack(order) => has_many_stacked(column_indexes, order),
        MergeRowOrder::Shuffled(order) => has_many_named(column_indexes, order),
    }
}

// The same of all rows.
fn has_many_stacked(column_indexes: &[ColumnIndex], order: &StackMergeOrder) -> bool
    requires { FitSegments order.now (map shape_of column_indexes.now) }
    ensures { result ≡ nat_le (2 ^ 32)
        (sum (counts_picked (stack order.now) (map shape_of column_indexes.now))) }
{
    let mut count = 0u64;
    for segment in 0..order.num_segments() {
        let num_rows = order.segment_num_rows(segment);
        count += u64::from(num_in_segment(column_indexes, segment, num_rows));
        if count > u64::from(u32::MAX) {
            return true;
        }
    }
    false
}

// The same of the rows that are named, which aren't looked at where so many rows have few values,
// whichever they are.
fn has_many_named(column_indexes: &[ColumnIndex], order: &ShuffleMergeOrder) -> bool
    requires { FitSegments order.now.counts (map shape_of column_indexes.now) }
    ensures { let shuffled = shuffle order.now.counts order.now.addresses in
        result ≡ nat_le (2 ^ 32)
        (sum (counts_picked shuffled (map shape_of column_indexes.now))) }
{
    let num_rows = u64::from(order.num_rows());
    let most = most_in_rows(column_indexes);
    if num_rows.saturating_mul(most) <= u64::from(u32::MAX) {
        return false;
    }
    has_many_shuffled(column_indexes, order)
}

// A count that no row of the indexes is above.
fn most_in_rows(column_indexes: &[ColumnIndex]) -> u64
    ensures { HaveAtMost result column_indexes.now }
{
    let mut most = 0;
    for column_index in column_indexes {
        most = most_in_row(column_index).max(most);
    }
    most
}

// The same of one index.
fn most_in_row(column_index: &ColumnIndex) -> u64
    ensures { HasAtMost result column_index.now }
{
    match column_index {
        ColumnIndex::Full | ColumnIndex::Empty { .. } => 1,
        ColumnIndex::Optional(index) => {
            index.rows_rise();
            1
        }
        ColumnIndex::Multivalued(index) => greatest_step(index.get_start_index_column()),
    }
}

// How far apart two starts are at most, one behind the other.
fn greatest_step(starts: &U64Values) -> u64
    ensures { StepsAtMost result 0 (list_of starts.now) }
{
    let mut greatest = 0;
    let mut before = 0;
    for at in 0..starts.num_vals() {
        let start = starts.get_val(at);
        greatest = start.saturating_sub(before).max(greatest);
        before = start;
    }
    greatest
}

// The same of the rows that are named, which are walked.
fn has_many_shuffled(column_indexes: &[ColumnIndex], order: &ShuffleMergeOrder) -> bool
    requires { FitSegments order.now.counts (map shape_of column_indexes.now) }
    ensures { let shuffled = shuffle order.now.counts order.now.addresses in
        result ≡ nat_le (2 ^ 32)
        (sum (counts_picked shuffled (map shape_of column_indexes.now))) }
{
    order.rows_are_there();
    let mut count = 0u64;
    for addr in order.iter_new_to_old_row_addrs() {
        count += u64::from(num_at(column_indexes, *addr));
        if count > u64::from(u32::MAX) {
            return true;
        }
    }
    false
}

// How many values a segment of so many rows has.
fn num_in_segment(column_indexes: &[ColumnIndex], segment: usize, num_rows: RowId) -> RowId
    requires there { segment < length column_indexes.now }
    requires over { let shapes = map shape_of column_indexes.now in
        is_over num_rows (slice_index_or shapes segment (empty_shape 0)) ≡ true }
    ensures { let shapes = map shape_of column_indexes.now in
        let shape = slice_index_or shapes segment (empty_shape 0) in
        result ≡ sum (counts_in num_rows shape) }
{
    num_in_rows(&column_indexes[segment], num_rows)
}

// How many values so many rows have, which are all that the index has.
fn num_in_rows(column_index: &ColumnIndex, num_rows: RowId) -> RowId
    requires { is_over num_rows (shape_of column_index.now) ≡ true }
    ensures { result ≡ sum (counts_in num_rows (shape_of column_index.now)) }
{
    column_index.docid_range_to_rowids(0..num_rows).end
}

// How many values the row has that an address names.
fn num_at(column_indexes: &[ColumnIndex], addr: RowAddr) -> RowId
    requires { addr.segment_ord < length column_indexes.now }
    ensures { let shapes = map shape_of column_indexes.now in
        let shape = slice_index_or shapes addr.segment_ord (empty_shape 0) in
        result ≡ count_in shape addr.row_id }
{
    num_in_row(&column_indexes[addr.segment_ord as usize], addr.row_id)
}

// How many values a row has.
fn num_in_row(column_index: &ColumnIndex, row: RowId) -> RowId
    ensures { result ≡ count_in (shape_of column_index.now) row }
{
    match column_index {
        ColumnIndex::Empty { .. } => 0,
        ColumnIndex::Full => 1,
        ColumnIndex::Optional(_) | ColumnIndex::Multivalued(_) => {
            let positions = column_index.value_row_ids(row);
            positions.end - positions.start
        }
    }
}
