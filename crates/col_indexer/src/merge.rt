//! Merged indexes.
ghost use Rattle.std.specs.Prelude.{◌≡◌, true, map};
ghost use Rattle.std.specs.List.{AllByRecursion};
ghost use Rattle.col_model.specs.Index.{full_shape};
ghost use Rattle.col_model.specs.Merge.{greater_cardinality};
ghost use Rattle.col_model.specs.Order.{stack, shuffle};
ghost use Rattle.col_order.specs.RowOrders.{order_of};
ghost use Rattle.col_index.specs.Versions.{cardinality_of};
ghost use Rattle.col_index.specs.Indexes.{shape_of};
ghost use Rattle.col_indexer.specs.Spelling.{IsIndex};
ghost use Rattle.col_indexer.specs.Merged.{FitOrder, IsMerged};
ghost use Rattle.col_indexer.specs.Merged.{merged_cardinality, stacked_cardinality_of};
ghost use Rattle.col_indexer.specs.Counted.{tightest_of, HasFew};
ghost use Rattle.col_indexer.specs.Written.{index_of};
ghost use Rattle.col_model.specs.Positions.{picked_counts};

use crate::serialize::SerializableColumnIndex;
use crate::shuffled::{has_value_at, values_at};
use crate::{
    RowIds, ShuffledRowIds, ShuffledStartOffsets, StackedRowIds, StackedStartOffsets, StartOffsets,
};
use col_index::{Cardinality, ColumnIndex};
use col_order::{MergeRowOrder, ShuffleMergeOrder, StackMergeOrder};

/// The index of the rows that an order picks from indexes. It holds no list.
pub fn merge_column_index<'a>(
    column_indexes: &'a [ColumnIndex],
    merge_row_order: &'a MergeRowOrder,
) -> SerializableColumnIndex<'a>
    requires { FitOrder (order_of merge_row_order.now) (map shape_of column_indexes.now) }
    ensures counts { let shapes = map shape_of column_indexes.now in
        IsMerged (order_of merge_row_order.now) shapes (index_of result) }
    ensures index { IsIndex (index_of result) }
{
    match merge_row_order {
        MergeRowOrder::Stack(order) => {
            merge_column_index_stacked(column_indexes, stacked_cardinality(column_indexes), order)
        }
        MergeRowOrder::Shuffled(order) => merge_column_index_shuffled(
            column_indexes,
            shuffled_cardinality(column_indexes, order),
            order,
        ),
    }
}

/// The index of all rows, segment after segment, of the cardinality that is the greatest of the
/// segments'.
pub fn merge_column_index_stacked<'a>(
    column_indexes: &'a [ColumnIndex],
    cardinality_after_merge: Cardinality,
    stack_merge_order: &'a StackMergeOrder,
) -> SerializableColumnIndex<'a>
    requires fit { FitOrder (stack stack_merge_order.now) (map shape_of column_indexes.now) }
    requires cardinality { cardinality_of cardinality_after_merge
        ≡ merged_cardinality (stack stack_merge_order.now) (map shape_of column_indexes.now) }
    ensures counts { let shapes = map shape_of column_indexes.now in
        IsMerged (stack stack_merge_order.now) shapes (index_of result) }
    ensures index { IsIndex (index_of result) }
{
    let num_rows = stack_merge_order.num_rows();
    let rows = RowIds::Stacked(StackedRowIds::new(column_indexes, stack_merge_order));
    let starts = StackedStartOffsets::new(column_indexes, stack_merge_order);
    SerializableColumnIndex::from_lists(
        cardinality_after_merge,
        num_rows,
        rows,
        StartOffsets::Stacked(starts),
    )
}

/// The index of rows that are named one by one, of their tightest cardinality.
pub fn merge_column_index_shuffled<'a>(
    column_indexes: &'a [ColumnIndex],
    cardinality_after_merge: Cardinality,
    shuffle_merge_order: &'a ShuffleMergeOrder,
) -> SerializableColumnIndex<'a>
    requires fit { let s = shuffle_merge_order.now in
        FitOrder (shuffle s.counts s.addresses) (map shape_of column_indexes.now) }
    requires cardinality { let s = shuffle_merge_order.now in
        cardinality_of cardinality_after_merge
        ≡ merged_cardinality (shuffle s.counts s.addresses) (map shape_of column_indexes.now) }
    ensures counts { let order = shuffle_merge_order.now in
        let shapes = map shape_of column_indexes.now in
        IsMerged (shuffle order.counts order.addresses) shapes (index_of result) }
    ensures index { IsIndex (index_of result) }
{
    shuffle_merge_order.rows_are_there();
    let num_rows = shuffle_merge_order.num_rows();
    let rows = RowIds::Shuffled(ShuffledRowIds::new(column_indexes, shuffle_merge_order));
    let starts = ShuffledStartOffsets::new(column_indexes, shuffle_merge_order);
    SerializableColumnIndex::from_lists(
        cardinality_after_merge,
        num_rows,
        rows,
        StartOffsets::Shuffled(starts),
    )
}

// The greatest cardinality of the segments.
fn stacked_cardinality(column_indexes: &[ColumnIndex]) -> Cardinality
    ensures { cardinality_of result ≡ stacked_cardinality_of (map shape_of column_indexes.now) }
{
    let mut greatest = Cardinality::Full;
    for index in column_indexes {
        greatest = greater(greatest, index.get_cardinality());
    }
    greatest
}

// The one that allows more.
fn greater(a: Cardinality, b: Cardinality) -> Cardinality
    ensures { cardinality_of result ≡ greater_cardinality (cardinality_of a) (cardinality_of b) }
{
    if a.to_code() < b.to_code() { b } else { a }
}

// The tightest cardinality of the rows that are named. No more rows are looked at than tell it.
fn shuffled_cardinality(indexes: &[ColumnIndex], order: &ShuffleMergeOrder) -> Cardinality
    requires { let s = order.now in
        FitOrder (shuffle s.counts s.addresses) (map shape_of indexes.now) }
    ensures { cardinality_of result ≡ tightest_of
        (picked_counts (map shape_of indexes.now) order.now.addresses) }
{
    order.rows_are_there();
    if are_full(indexes) {
        return Cardinality::Full;
    }
    if are_sets(indexes) {
        return cardinality_of_sets(indexes, order);
    }
    cardinality_of_counts(indexes, order)
}

// Whether each index is Full, so that each row has one value.
fn are_full(column_indexes: &[ColumnIndex]) -> bool
    ensures { result ≡ true →
        AllByRecursion (λ index. shape_of index ≡ full_shape) column_indexes.now }
{
    for index in column_indexes {
        if !is_full(index) {
            return false;
        }
    }
    true
}

// Whether an index is Full.
fn is_full(column_index: &ColumnIndex) -> bool
    ensures { result ≡ true → shape_of column_index.now ≡ full_shape }
{
    matches!(column_index, ColumnIndex::Full)
}

// Whether no index is Multivalued, so that no row has more than one value.
fn are_sets(column_indexes: &[ColumnIndex]) -> bool
    ensures { result ≡ true →
        AllByRecursion (λ index. HasFew (shape_of index)) column_indexes.now }
{
    for index in column_indexes {
        if !is_set(index) {
            return false;
        }
    }
    true
}

// Whether an index isn't Multivalued.
fn is_set(column_index: &ColumnIndex) -> bool
    ensures { result ≡ true → HasFew (shape_of column_index.now) }
{
    match column_index {
        ColumnIndex::Empty { .. } | ColumnIndex::Full => true,
        ColumnIndex::Optional(index) => {
            index.rows_rise();
            true
        }
        ColumnIndex::Multivalued(_) => false,
    }
}

// The tightest cardinality of the rows that are named, none of which has more than one value.
fn cardinality_of_sets(indexes: &[ColumnIndex], order: &ShuffleMergeOrder) -> Cardinality
    requires fit { let s = order.now in
        FitOrder (shuffle s.counts s.addresses) (map shape_of indexes.now) }
    requires few { AllByRecursion (λ index. HasFew (shape_of index)) indexes.now }
    ensures { cardinality_of result ≡ tightest_of
        (picked_counts (map shape_of indexes.now) order.now.addresses) }
{
    order.rows_are_there();
    for addr in order.iter_new_to_old_row_addrs() {
        if !has_value_at(indexes, *addr) {
            return Cardinality::Optional;
        }
    }
    Cardinality::Full
}

// The tightest cardinality of the rows that are named.
fn cardinality_of_counts(indexes: &[ColumnIndex], order: &ShuffleMergeOrder) -> Cardinality
    requires { let s = order.now in
        FitOrder (shuffle s.counts s.addresses) (map shape_of indexes.now) }
    ensures { cardinality_of result ≡ tightest_of
        (picked_counts (map shape_of indexes.now) order.now.addresses) }
{
    order.rows_are_there();
    let mut tightest = Cardinality::Full;
    for addr in order.iter_new_to_old_row_addrs() {
        let count = values_at(indexes, *addr);
        if count > 1 {
            return Cardinality::Multivalued;
        }
        if count == 0 {
            tightest = Cardinality::Optional;
        }
    }
    tightest
}
