//! The runs of an index, and of indexes one behind another, in memory.
ghost use Rattle.std.specs.Prelude.{◌≡◌, ◌<◌, ◌^◌, ◌+◌, true, length, IfOk, IfSome, OnOk};
ghost use Rattle.std.specs.List.{range_with_len};
ghost use Rattle.col_model.specs.Index.{runs_of, set_counts};
ghost use Rattle.col_model.specs.Positions.{rows_with_value};
ghost use Rattle.col_index.specs.Indexes.{shape_of};
ghost use Rattle.col_indexer.specs.Counted.{counts_in, rows_behind};
ghost use Rattle.col_indexer.specs.Runs.{HaveMore};
ghost use Rattle.col_indexer.specs.Stacks.{AreSegments, index_segments, stacked_counts};

use crate::runs::Runs;
use col_common::RowId;
use col_index::{ColumnIndex, OptionalIndex};
use col_order::StackMergeOrder;
use std::alloc::{AllocError, Global};

/// The runs of the rows with a value of an index, in memory, where it has its rows in runs.
pub(crate) fn index_runs(alloc: Global, index: &OptionalIndex) -> Result<Option<Runs>, AllocError>
    ensures { IfOk result (λ o. IfSome o (λ runs. runs ≡ runs_of index.now.rows)) }
{
    index.rows_rise();
    // That rows are below a count of 32 bits is known of the count.
    let _num_docs = index.num_docs();
    let mut runs = Runs::with_capacity(alloc, 0)?;
    if !push_held(&mut runs, index, 0)? {
        return Ok(None);
    }
    Ok(Some(runs))
}

/// The runs of the rows with a value of indexes one behind another, in memory, where each index has
/// its runs at hand.
pub(crate) fn collected_runs(
    alloc: Global,
    column_indexes: &[ColumnIndex],
    order: &StackMergeOrder,
) -> Result<Option<Runs>, AllocError>
    requires segments { AreSegments (index_segments column_indexes.now order.now) }
    ensures { let s = index_segments column_indexes.now order.now in IfOk result (λ o.
        IfSome o (λ runs. runs ≡ runs_of (rows_with_value (stacked_counts s)))) }
{
    let mut runs = Runs::with_capacity(alloc, column_indexes.len())?;
    let mut before = 0u64;
    for segment in 0..order.num_segments() {
        let num_rows = order.segment_num_rows(segment);
        if !push_runs(&mut runs, &column_indexes[segment], num_rows, before)? {
            return Ok(None);
        }
        before += u64::from(num_rows);
    }
    Ok(Some(runs))
}

// Adds the runs of a segment, behind so many rows, if they are found without a look at its rows.
fn push_runs(
    runs: &mut Runs,
    column_index: &ColumnIndex,
    num_rows: RowId,
    before: u64,
) -> Result<bool, AllocError>
    requires { before + length (counts_in num_rows (shape_of column_index.now)) < 2 ^ 32 }
    ensures { IfOk result (λ are_added. are_added ≡ true → HaveMore runs.old runs.new
        (rows_behind before (counts_in num_rows (shape_of column_index.now)))) }
{
    match column_index {
        ColumnIndex::Empty { .. } => Ok(true),
        ColumnIndex::Full => {
            push_span(runs, before, num_rows)?;
            Ok(true)
        }
        ColumnIndex::Optional(index) => push_held(runs, index, before),
        ColumnIndex::Multivalued(_) => Ok(false),
    }
}

// Adds the runs of an index, behind so many rows, if it has its rows in runs.
fn push_held(runs: &mut Runs, index: &OptionalIndex, before: u64) -> Result<bool, AllocError>
    requires { before + index.now.num_rows < 2 ^ 32 }
    ensures { IfOk result (λ are_added. are_added ≡ true → HaveMore runs.old runs.new
        (rows_behind before (set_counts index.now))) }
{
    let Some(held) = index.runs() else {
        return Ok(false);
    };
    index.rows_rise();
    for at in 0..held.num_runs() {
        let (start, len) = held.run(at);
        push_span(runs, before + u64::from(start), len)?;
    }
    Ok(true)
}

// Adds so many rows, from a row on.
fn push_span(runs: &mut Runs, start: u64, count: RowId) -> Result<(), AllocError>
    requires { start + count < 2 ^ 32 }
    ensures { OnOk result (HaveMore runs.old runs.new (range_with_len start count)) }
{
    if count == 0 {
        return Ok(());
    }
    runs.push_run(start as RowId, count)
}
