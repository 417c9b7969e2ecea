//! All rows, segment after segment.
ghost use Rattle.std.specs.Prelude.{◌≡◌, ◌↔◌, ◌⊎◌, ◌+◌, ◌^◌, ◌≤◌, ◌<◌, length, sum, slice_index};
ghost use Rattle.std.specs.Prelude.{nat_lt, Err, IfOk, IfErr};
ghost use Rattle.col_common.specs.declared.error.ColumnarError.TheVariants as refusals;
ghost use Rattle.col_common.specs.Reading.{only_if};
ghost use Rattle.col_model.specs.Positions.{start_of};
ghost use Rattle.col_order.specs.Orders.{offsets_of};

use col_common::{ColumnarError, RowId};
use std::alloc::{AllocError, Global};
use std::marker::Model;
use std::ops::Range;

/// The order that takes all rows, segment after segment. Contracts see the row counts.
#[derive(Drop)]
pub struct StackMergeOrder {
    segment_num_rows: Vec<RowId>,
    offsets: Vec<RowId>,
}

impl Model for StackMergeOrder {
    ghost use Rattle.std.specs.Prelude.{List, ℕ};
    ghost use Rattle.col_order.specs.Orders.{IsStack};

    ghost Value = { List ℕ };

    ghost view = { λ o. o.segment_num_rows.items };

    ghost invariant = { λ o. IsStack o.segment_num_rows.items o.offsets.items };
}

impl StackMergeOrder {
    /// The order of segments with these row counts.
    pub fn from_row_counts(
        alloc: Global,
        row_counts: &[RowId],
    ) -> Result<StackMergeOrder, ColumnarError>
        ensures ok { IfOk result (λ order. order ≡ row_counts.now) }
        ensures too_large { (result ≡ Err refusals.TooLarge) ↔ (2 ^ 32 ≤ sum row_counts.now) }
        ensures err { IfErr result (λ e. (e ≡ refusals.TooLarge) ⊎ (e ≡ refusals.OutOfMemory)) }
    {
        if total(row_counts).is_none() {
            return Err(ColumnarError::TooLarge);
        }
        let segment_num_rows = row_counts.to_vec(alloc)?;
        let offsets = offsets(alloc, row_counts)?;
        Ok(StackMergeOrder {
            segment_num_rows,
            offsets,
        })
    }

    /// The same.
    pub fn stack_for_test(
        alloc: Global,
        row_counts: &[RowId],
    ) -> Result<StackMergeOrder, ColumnarError>
        ensures ok { IfOk result (λ order. order ≡ row_counts.now) }
        ensures too_large { (result ≡ Err refusals.TooLarge) ↔ (2 ^ 32 ≤ sum row_counts.now) }
        ensures err { IfErr result (λ e. (e ≡ refusals.TooLarge) ⊎ (e ≡ refusals.OutOfMemory)) }
    {
        StackMergeOrder::from_row_counts(alloc, row_counts)
    }

    /// How many rows there are.
    pub fn num_rows(&self) -> RowId
        ensures { result ≡ sum self.now }
    {
        self.offset(self.num_segments())
    }

    /// How many segments there are.
    pub fn num_segments(&self) -> usize
        ensures { result ≡ length self.now }
    {
        self.segment_num_rows.len()
    }

    /// How many rows a segment has.
    pub fn segment_num_rows(&self, segment: usize) -> RowId
        requires { segment < length self.now }
        ensures { result ≡ slice_index self.now segment }
    {
        self.segment_num_rows[segment]
    }

    /// How many rows stand before those of a segment; at the number of segments, all.
    pub fn offset(&self, segment: usize) -> RowId
        requires { segment ≤ length self.now }
        ensures { result ≡ start_of self.now segment }
    {
        self.offsets[segment]
    }

    /// The rows of a segment.
    pub fn columnar_range(&self, segment: usize) -> Range<RowId>
        requires { segment < length self.now }
        ensures start { result.start ≡ start_of self.now segment }
        ensures end { result.end ≡ start_of self.now (segment + 1) }
    {
        self.offsets[segment]..self.offsets[segment + 1]
    }
}

// How many rows there are in all; none where 32 bits don't count them.
fn total(row_counts: &[RowId]) -> Option<RowId>
    ensures { result ≡ only_if (nat_lt (sum row_counts.now) (2 ^ 32)) (sum row_counts.now) }
{
    let mut sum = 0u32;
    for count in row_counts {
        sum = sum.checked_add(*count)?;
    }
    Some(sum)
}

// Where the rows of each segment start, and behind the last where they end.
fn offsets(alloc: Global, row_counts: &[RowId]) -> Result<Vec<RowId>, AllocError>
    requires { sum row_counts.now < 2 ^ 32 }
    ensures { IfOk result (λ offsets. offsets.items ≡ offsets_of row_counts.now) }
{
    let mut offsets = Vec::with_capacity(alloc, row_counts.len() + 1)?;
    let mut start = 0u32;
    for count in row_counts {
        offsets.push(start)?;
        start += *count;
    }
    offsets.push(start)?;
    Ok(offsets)
}
