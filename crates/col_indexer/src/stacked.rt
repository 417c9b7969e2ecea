//! Indexes one behind another.
ghost use Rattle.std.specs.Prelude.{◌≡◌, ◌≤◌, ◌+◌, ◌^◌, sum, slice_get, option_map, IfOk, IfSome};
ghost use Rattle.std.specs.List.{range_with_len};
ghost use Rattle.col_model.specs.Index.{runs_of};
ghost use Rattle.col_model.specs.Positions.{rank, rows_with_value, starts_of};
ghost use Rattle.col_indexer.specs.Counted.{counts_in};
ghost use Rattle.col_index.specs.Indexes.{shape_of};
ghost use Rattle.col_index.specs.MultiValues.{value_counts_of};
ghost use Rattle.col_index.specs.Walked.{IsHint32};
ghost use Rattle.col_common.specs.Walks.{IsNext};
ghost use Rattle.col_indexer.specs.Stacks.{AreSegments, index_segments, stacked_counts};
ghost use Rattle.col_indexer.specs.Stacks.{StandsAtRow, stacked_rows_to_give, StandsAtOffset, stacked_offsets_to_give};

use crate::runs::Runs;
use crate::stacked_lists::{collected_rows, collected_starts};
use crate::stacked_runs::collected_runs;
use col_common::{DocId, Iterable, RowId, Walk};
use col_index::{ColumnIndex, MultiValueIndex, NonNullDocs};
use col_order::StackMergeOrder;
use col_values::ColumnValues;
use std::alloc::{AllocError, Global};
use std::marker::Model;

/// The rows with a value of indexes one behind another. Contracts see the indexes' shapes and their
/// segments' row counts.
#[derive(Drop)]
pub struct StackedRowIds<'a> {
    column_indexes: &'a [ColumnIndex],
    order: &'a StackMergeOrder,
}

impl<'a> Model for StackedRowIds<'a> {
    ghost use Rattle.col_indexer.specs.Stacks.{Segments, AreSegments, index_segments};

    ghost Value = { Segments };

    ghost view = { λ s. index_segments s.column_indexes.now s.order.now };

    ghost invariant = { λ s. AreSegments (index_segments s.column_indexes.now s.order.now) };
}

/// The start offsets of indexes one behind another. Contracts see the same.
#[derive(Drop)]
pub struct StackedStartOffsets<'a> {
    column_indexes: &'a [ColumnIndex],
    order: &'a StackMergeOrder,
}

impl<'a> Model for StackedStartOffsets<'a> {
    ghost use Rattle.col_indexer.specs.Stacks.{Segments, AreSegments, index_segments};

    ghost Value = { Segments };

    ghost view = { λ s. index_segments s.column_indexes.now s.order.now };

    ghost invariant = { λ s. AreSegments (index_segments s.column_indexes.now s.order.now) };
}

impl<'a> StackedRowIds<'a> {
    /// The rows of indexes of an order's segments.
    pub fn new(column_indexes: &'a [ColumnIndex], order: &'a StackMergeOrder) -> StackedRowIds<'a>
        requires { AreSegments (index_segments column_indexes.now order.now) }
        ensures { result ≡ index_segments column_indexes.now order.now }
    {
        StackedRowIds {
            column_indexes,
            order,
        }
    }

    /// The rows, in memory.
    pub(crate) fn collected(&self, alloc: Global) -> Result<Vec<RowId>, AllocError>
        ensures { IfOk result (λ v. v.items ≡ rows_with_value (stacked_counts self.now)) }
    {
        collected_rows(alloc, self.column_indexes, self.order)
    }

    /// Their runs, in memory, where each index has its runs at hand.
    pub(crate) fn collected_runs(&self, alloc: Global) -> Result<Option<Runs>, AllocError>
        ensures { IfOk result (λ o. IfSome o (λ runs.
            runs ≡ runs_of (rows_with_value (stacked_counts self.now)))) }
    {
        collected_runs(alloc, self.column_indexes, self.order)
    }
}

impl<'a> StackedStartOffsets<'a> {
    /// The start offsets of indexes of an order's segments.
    pub fn new(
        column_indexes: &'a [ColumnIndex],
        order: &'a StackMergeOrder,
    ) -> StackedStartOffsets<'a>
        requires { AreSegments (index_segments column_indexes.now order.now) }
        ensures { result ≡ index_segments column_indexes.now order.now }
    {
        StackedStartOffsets {
            column_indexes,
            order,
        }
    }

    /// The offsets, in memory.
    pub(crate) fn collected(&self, alloc: Global) -> Result<Vec<RowId>, AllocError>
        ensures { IfOk result (λ v. v.items ≡ starts_of (stacked_counts self.now)) }
    {
        collected_starts(alloc, self.column_indexes, self.order)
    }
}

impl Iterable<RowId> for StackedRowIds<'_> {
    ghost use Rattle.col_indexer.specs.Stacks.{stacked_counts};

    ghost items = { λ s. rows_with_value (stacked_counts s) };

    ghost stands = { λ s w. StandsAtRow s w };

    ghost left = { λ s w. stacked_rows_to_give s w };

    fn walk(&self) -> Walk {
        Walk::default()
    }

    #[inline(always)]
    fn next(&self, at: &mut Walk) -> Option<RowId> {
        next_row(self.column_indexes, self.order, at)
    }
}

impl Iterable<RowId> for StackedStartOffsets<'_> {
    ghost use Rattle.col_indexer.specs.Stacks.{stacked_counts};

    ghost items = { λ s. starts_of (stacked_counts s) };

    ghost stands = { λ s w. StandsAtOffset s w };

    ghost left = { λ s w. stacked_offsets_to_give s w };

    fn walk(&self) -> Walk {
        Walk::default()
    }

    #[inline(always)]
    fn next(&self, at: &mut Walk) -> Option<RowId> {
        next_start(self.column_indexes, self.order, at)
    }
}

/// The row at a place among those of a segment that have a value; none past the last. So many rows
/// with a value stand before the row from which on it is looked for.
#[inline(always)]
pub(crate) fn row_at(
    column_index: &ColumnIndex,
    num_rows: RowId,
    place: u64,
    from: DocId,
) -> Option<RowId>
    requires { let counts = counts_in num_rows (shape_of column_index.now) in
        rank (rows_with_value counts) from ≡ place }
    ensures { let counts = counts_in num_rows (shape_of column_index.now) in
        result ≡ slice_get (rows_with_value counts) place }
{
    match column_index {
        ColumnIndex::Empty { .. } => None,
        ColumnIndex::Full => number_below(u64::from(num_rows), place),
        ColumnIndex::Optional(index) => {
            index.rows_rise();
            row_of(&index.iter_non_null_docs(), place, from)
        }
        ColumnIndex::Multivalued(index) => row_of(&index.iter_non_null_docs(), place, from),
    }
}

// The row at a place, looked for from a row on; none past the last.
#[inline(always)]
fn row_of(rows: &NonNullDocs<'_>, place: u64, from: DocId) -> Option<RowId>
    requires { rank rows.now from ≡ place }
    ensures { result ≡ slice_get rows.now place }
{
    let mut walk = Walk {
        segment: 0,
        place,
        inner: u64::from(from),
        sum: 0,
    };
    rows.next(&mut walk)
}

// A number, none from a limit on.
#[inline(always)]
fn number_below(limit: u64, number: u64) -> Option<RowId>
    requires { limit ≤ 2 ^ 32 }
    ensures { result ≡ slice_get (range_with_len 0 limit) number }
{
    if number < limit {
        Some(number as RowId)
    } else {
        None
    }
}

// Where the values of the row at a place end; none past the last row. Beside it stands a number
// from which on the next row can be looked for.
#[inline(always)]
fn end_at(
    column_index: &ColumnIndex,
    num_rows: RowId,
    place: u64,
    from: DocId,
) -> Option<(DocId, RowId)>
    requires { let counts = counts_in num_rows (shape_of column_index.now) in
        IsHint32 (rows_with_value counts) from place }
    ensures end { let counts = counts_in num_rows (shape_of column_index.now) in
        option_map (λ r. r.1) result ≡ slice_get (starts_of counts) (place + 1) }
    ensures hint { let counts = counts_in num_rows (shape_of column_index.now) in
        IfSome result (λ r. IsHint32 (rows_with_value counts) r.0 (place + 1)) }
{
    match column_index {
        ColumnIndex::Empty { .. } => None,
        ColumnIndex::Full => single_end(num_rows, place),
        ColumnIndex::Optional(index) => {
            index.rows_rise();
            single_end(index.num_non_nulls(), place)
        }
        ColumnIndex::Multivalued(index) => index.next_end(place, from),
    }
}

// The same where so many rows have one value each: no row has to be looked for.
#[inline(always)]
fn single_end(num_rows: RowId, place: u64) -> Option<(DocId, RowId)>
    ensures end { option_map (λ r. r.1) result
        ≡ slice_get (range_with_len 0 (num_rows + 1)) (place + 1) }
    ensures hint { IfSome result (λ r. r.0 ≡ 0) }
{
    if place >= u64::from(num_rows) {
        return None;
    }
    Some((0, place as RowId + 1))
}

/// How many values an index has: its last start offset.
pub(crate) fn last_start(index: &MultiValueIndex) -> RowId
    ensures { result ≡ sum (value_counts_of index.now) }
{
    let starts = index.get_start_index_column();
    starts.get_val(starts.num_vals() - 1) as RowId
}

/// An index has at most so many start offsets: no more than it stores, nor more than one beside its
/// values.
pub(crate) fn max_starts(index: &MultiValueIndex) -> RowId {
    let stored = index.get_start_index_column().num_vals();
    stored.min(last_start(index).saturating_add(1))
}

/// How many values a segment has.
pub(crate) fn num_values(column_index: &ColumnIndex, num_rows: RowId) -> RowId
    ensures { result ≡ sum (counts_in num_rows (shape_of column_index.now)) }
{
    match column_index {
        ColumnIndex::Empty { .. } => 0,
        ColumnIndex::Full => num_rows,
        ColumnIndex::Optional(index) => {
            index.rows_rise();
            index.num_non_nulls()
        }
        ColumnIndex::Multivalued(index) => last_start(index),
    }
}

// The next row, from a walk.
#[inline(always)]
fn next_row(column_indexes: &[ColumnIndex], order: &StackMergeOrder, at: &mut Walk) -> Option<RowId>
    requires segments { AreSegments (index_segments column_indexes.now order.now) }
    requires stands { StandsAtRow (index_segments column_indexes.now order.now) at.old }
    ensures stands { StandsAtRow (index_segments column_indexes.now order.now) at.new }
    ensures value { let left = stacked_rows_to_give (index_segments column_indexes.now order.now) in
        IsNext (left at.old) result (left at.new) }
{
    let num_segments = order.num_segments() as u64;
    while at.segment < num_segments {
        let segment = at.segment as usize;
        let num_rows = order.segment_num_rows(segment);
        match row_at(
            &column_indexes[segment],
            num_rows,
            at.place,
            at.inner as DocId,
        ) {
            Some(row) => {
                at.place += 1;
                at.inner = u64::from(row) + 1;
                return Some((at.sum + u64::from(row)) as RowId);
            }
            None => {
                at.segment += 1;
                at.place = 0;
                at.inner = 0;
                at.sum += u64::from(num_rows);
            }
        }
    }
    None
}

// The next start offset, from a walk.
#[inline(always)]
fn next_start(
    column_indexes: &[ColumnIndex],
    order: &StackMergeOrder,
    at: &mut Walk,
) -> Option<RowId>
    requires segments { AreSegments (index_segments column_indexes.now order.now) }
    requires stands { StandsAtOffset (index_segments column_indexes.now order.now) at.old }
    ensures stands { StandsAtOffset (index_segments column_indexes.now order.now) at.new }
    ensures value { let segments = index_segments column_indexes.now order.now in
        let left = stacked_offsets_to_give segments in
        IsNext (left at.old) result (left at.new) }
{
    if at.place == 0 {
        at.place = 1;
        return Some(at.sum as RowId);
    }
    let num_segments = order.num_segments() as u64;
    while at.segment < num_segments {
        let segment = at.segment as usize;
        let num_rows = order.segment_num_rows(segment);
        let column_index = &column_indexes[segment];
        match end_at(column_index, num_rows, at.place - 1, at.inner as DocId) {
            Some((behind, end)) => {
                at.place += 1;
                at.inner = u64::from(behind);
                return Some((at.sum + u64::from(end)) as RowId);
            }
            None => {
                at.segment += 1;
                at.place = 1;
                at.inner = 0;
                at.sum += u64::from(num_values(column_index, num_rows));
            }
        }
    }
    None
}
