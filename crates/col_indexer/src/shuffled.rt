//! Rows that are picked one by one from indexes.
ghost use Rattle.std.specs.Prelude.{◌≡◌, ◌<◌, ◌==◌, not, length, map, slice_index, slice_index_or};
ghost use Rattle.col_model.specs.Index.{empty_shape, set_counts};
ghost use Rattle.col_model.specs.Positions.{count_in};
ghost use Rattle.col_index.specs.Indexes.{shape_of};
ghost use Rattle.col_index.specs.MultiValues.{value_counts_of};

use col_common::{Iterable, RowAddr, RowId, Walk};
use col_index::{ColumnIndex, MultiValueIndex, OptionalIndex, Set};
use col_order::ShuffleMergeOrder;
use std::marker::Model;

/// The new rows with a value, of rows that are picked from indexes. Contracts see the indexes'
/// shapes and the order.
#[derive(Drop)]
pub struct ShuffledRowIds<'a> {
    column_indexes: &'a [ColumnIndex],
    order: &'a ShuffleMergeOrder,
}

impl<'a> Model for ShuffledRowIds<'a> {
    ghost use Rattle.std.specs.Prelude.{map};
    ghost use Rattle.col_index.specs.Indexes.{shape_of};
    ghost use Rattle.col_indexer.specs.Shuffles.{Picked, ArePickable, picked_of};

    ghost Value = { Picked };

    ghost view = { λ s. picked_of (map shape_of s.column_indexes.now) s.order.now };

    ghost invariant = { λ s.
        ArePickable (picked_of (map shape_of s.column_indexes.now) s.order.now) };
}

/// The start offsets of rows that are picked from indexes. Contracts see the same.
#[derive(Drop)]
pub struct ShuffledStartOffsets<'a> {
    column_indexes: &'a [ColumnIndex],
    order: &'a ShuffleMergeOrder,
}

impl<'a> Model for ShuffledStartOffsets<'a> {
    ghost use Rattle.std.specs.Prelude.{map};
    ghost use Rattle.col_index.specs.Indexes.{shape_of};
    ghost use Rattle.col_indexer.specs.Shuffles.{Picked, ArePickable, picked_of};

    ghost Value = { Picked };

    ghost view = { λ s. picked_of (map shape_of s.column_indexes.now) s.order.now };

    ghost invariant = { λ s.
        ArePickable (picked_of (map shape_of s.column_indexes.now) s.order.now) };
}

impl<'a> ShuffledRowIds<'a> {
    ghost use Rattle.col_indexer.specs.Shuffles.{ArePickable, picked_of};

    /// The new rows of an order over indexes.
    pub fn new(
        column_indexes: &'a [ColumnIndex],
        order: &'a ShuffleMergeOrder,
    ) -> ShuffledRowIds<'a>
        requires { ArePickable (picked_of (map shape_of column_indexes.now) order.now) }
        ensures { result ≡ picked_of (map shape_of column_indexes.now) order.now }
    {
        ShuffledRowIds {
            column_indexes,
            order,
        }
    }

    /// There are at most so many rows.
    pub(crate) fn max_len(&self) -> usize {
        self.order.num_rows() as usize
    }
}

impl<'a> ShuffledStartOffsets<'a> {
    ghost use Rattle.col_indexer.specs.Shuffles.{ArePickable, picked_of};

    /// The start offsets of an order over indexes.
    pub fn new(
        column_indexes: &'a [ColumnIndex],
        order: &'a ShuffleMergeOrder,
    ) -> ShuffledStartOffsets<'a>
        requires { ArePickable (picked_of (map shape_of column_indexes.now) order.now) }
        ensures { result ≡ picked_of (map shape_of column_indexes.now) order.now }
    {
        ShuffledStartOffsets {
            column_indexes,
            order,
        }
    }

    /// There are at most so many offsets.
    pub(crate) fn max_len(&self) -> usize {
        self.order.num_rows() as usize + 1
    }
}

impl Iterable<RowId> for ShuffledRowIds<'_> {
    ghost use Rattle.col_model.specs.Positions.{rows_with_value};
    ghost use Rattle.col_indexer.specs.Shuffles.{shuffled_counts, StandsAtPick, picks_to_give};

    ghost items = { λ p. rows_with_value (shuffled_counts p) };

    ghost stands = { λ p w. StandsAtPick p w };

    ghost left = { λ p w. picks_to_give p w };

    fn walk(&self) -> Walk {
        Walk::default()
    }

    fn next(&self, at: &mut Walk) -> Option<RowId> {
        let addrs = self.order.iter_new_to_old_row_addrs();
        let count = addrs.len() as u64;
        while at.place < count {
            let row = at.place;
            at.place = row + 1;
            if has_value_at(self.column_indexes, addrs[row as usize]) {
                return Some(row as RowId);
            }
        }
        None
    }
}

impl Iterable<RowId> for ShuffledStartOffsets<'_> {
    ghost use Rattle.col_model.specs.Positions.{starts_of};
    ghost use Rattle.col_indexer.specs.Shuffles.{shuffled_counts, StandsAtSum, sums_to_give};

    ghost items = { λ p. starts_of (shuffled_counts p) };

    ghost stands = { λ p w. StandsAtSum p w };

    ghost left = { λ p w. sums_to_give p w };

    fn walk(&self) -> Walk {
        Walk::default()
    }

    fn next(&self, at: &mut Walk) -> Option<RowId> {
        if at.inner == 0 {
            at.inner = 1;
            return Some(0);
        }
        let addrs = self.order.iter_new_to_old_row_addrs();
        let count = addrs.len() as u64;
        while at.place < count {
            let num_values = values_at(self.column_indexes, addrs[at.place as usize]);
            at.place += 1;
            if num_values != 0 {
                at.sum += u64::from(num_values);
                return Some(at.sum as RowId);
            }
        }
        None
    }
}

/// Whether the row that an address names has a value.
#[inline(always)]
pub(crate) fn has_value_at(column_indexes: &[ColumnIndex], addr: RowAddr) -> bool
    requires { addr.segment_ord < length column_indexes.now }
    ensures { let shapes = map shape_of column_indexes.now in
        let shape = slice_index_or shapes addr.segment_ord (empty_shape 0) in
        result ≡ not (count_in shape addr.row_id == 0) }
{
    column_indexes[addr.segment_ord as usize].has_value(addr.row_id)
}

/// How many values the row has that an address names.
#[inline(always)]
pub(crate) fn values_at(column_indexes: &[ColumnIndex], addr: RowAddr) -> RowId
    requires { addr.segment_ord < length column_indexes.now }
    ensures { let shapes = map shape_of column_indexes.now in
        let shape = slice_index_or shapes addr.segment_ord (empty_shape 0) in
        result ≡ count_in shape addr.row_id }
{
    num_values(&column_indexes[addr.segment_ord as usize], addr.row_id)
}

// How many values a row has.
#[inline(always)]
fn num_values(column_index: &ColumnIndex, row: RowId) -> RowId
    ensures { result ≡ count_in (shape_of column_index.now) row }
{
    match column_index {
        ColumnIndex::Empty { .. } => 0,
        ColumnIndex::Full => 1,
        ColumnIndex::Optional(index) => num_values_in_set(index, row),
        ColumnIndex::Multivalued(index) => num_values_in_rows(index, row),
    }
}

// The same where a row has at most one.
#[inline(always)]
fn num_values_in_set(index: &OptionalIndex, row: RowId) -> RowId
    ensures { result ≡ slice_index (set_counts index.now) row }
{
    index.rows_rise();
    if index.contains(row) { 1 } else { 0 }
}

// The same where a row may have several.
#[inline(always)]
fn num_values_in_rows(index: &MultiValueIndex, row: RowId) -> RowId
    ensures { result ≡ slice_index (value_counts_of index.now) row }
{
    let positions = index.range_if_any(row);
    positions.end - positions.start
}
