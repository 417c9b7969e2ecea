//! What a shuffle picks from columns, put into memory by one walk over the picked rows.
ghost use Rattle.std.specs.Prelude.{◌≡◌, ◌<◌, ◌^◌, [], sum, IfOk, OnOk};
ghost use Rattle.col_model.specs.Positions.{picked_counts};
ghost use Rattle.col_merge_values.specs.Merges.{AreColumns};
ghost use Rattle.col_merge_values.specs.Picked.{ArePicked};

use crate::runs::{append_run, value_row_ids};
use crate::segments::Segments;
use col_common::RowId;
use col_indexer::SerializableColumnIndex;
use col_order::ShuffleMergeOrder;
use std::alloc::{AllocError, Global};

/// The picked rows that have values, where these start and the last end, and the values.
#[derive(Drop)]
pub(crate) struct PickedColumn<T> {
    pub(crate) rows: Vec<RowId>,
    pub(crate) starts: Vec<RowId>,
    pub(crate) values: Vec<T>,
}

/// What a shuffle picks, with room for all its rows, and for so many values from the start.
pub(crate) fn picked_column<T: Copy, S: Segments<T>>(
    alloc: Global,
    segments: &S,
    order: &ShuffleMergeOrder,
    room: usize,
) -> Result<PickedColumn<T>, AllocError>
    requires columns { AreColumns order.now.counts (S.columns segments.now) }
    requires few { sum (picked_counts (S.columns segments.now).shapes order.now.addresses)
        < 2 ^ 32 }
    ensures { IfOk result (λ p. ArePicked (S.columns segments.now) order.now.addresses
        p.rows.items p.starts.items p.values.items) }
{
    let num_rows = order.num_rows() as usize;
    let mut rows = Vec::with_capacity(alloc, num_rows)?;
    let mut starts = Vec::with_capacity(alloc, num_rows + 1)?;
    let mut values = Vec::with_capacity(alloc, room)?;
    push_rows(segments, order, &mut rows, &mut starts, &mut values)?;
    Ok(PickedColumn {
        rows,
        starts,
        values,
    })
}

// Appends to three empty lists what a shuffle picks.
fn push_rows<T: Copy, S: Segments<T>>(
    segments: &S,
    order: &ShuffleMergeOrder,
    rows: &mut Vec<RowId>,
    starts: &mut Vec<RowId>,
    values: &mut Vec<T>,
) -> Result<(), AllocError>
    requires columns { AreColumns order.now.counts (S.columns segments.now) }
    requires few { sum (picked_counts (S.columns segments.now).shapes order.now.addresses)
        < 2 ^ 32 }
    requires rows { rows.old.items ≡ [] }
    requires starts { starts.old.items ≡ [] }
    requires values { values.old.items ≡ [] }
    ensures { OnOk result (ArePicked (S.columns segments.now) order.now.addresses
        rows.new.items starts.new.items values.new.items) }
{
    order.rows_are_there();
    for row in 0..order.num_rows() {
        let addr = order.row_addr(row);
        let row_ids = value_row_ids(segments, order, addr);
        if row_ids.start == row_ids.end {
            continue;
        }
        rows.push(row)?;
        starts.push(values.len() as RowId)?;
        let segment = addr.segment_ord as usize;
        append_run(segments, segment, row_ids.start, row_ids.end, values)?;
    }
    starts.push(values.len() as RowId)?;
    Ok(())
}

/// Whether an index is Full, which has no lists.
pub(crate) fn is_full(column_index: &SerializableColumnIndex<'_>) -> bool {
    matches!(column_index, SerializableColumnIndex::Full)
}
