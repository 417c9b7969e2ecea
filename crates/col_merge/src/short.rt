//! The columns of a slot for a stack, where the rows between them that have none are one segment.
ghost use Rattle.std.specs.Prelude.{◌≡◌, ◌++◌, ◌<◌, ◌^◌, [], ◌∷◌, length, List, option_map, sum, IfErr, IfOk, OnOk};
ghost use Rattle.std.specs.List.{AllByRecursion};
ghost use Rattle.col_model.specs.Category.{Slot};
ghost use Rattle.col_model.specs.File.{Part};
ghost use Rattle.col_model.specs.Merge.{Required, required_type, row_counts};
ghost use Rattle.col_model.specs.Order.{stack, all_rows};
ghost use Rattle.col_file.specs.Readers.{IsRead, Reads};
ghost use Rattle.col_types.specs.Kinds.{kind_of};
ghost use Rattle.col_merge_plan.specs.Placed.{AreSegmentsFrom};
ghost use Rattle.col_merge_plan.specs.Slots.{counts_read, keys_read};
ghost use Rattle.col_merge_slot.specs.JoinedSlots.{AreOpened};
ghost use Rattle.col_merge_slot.specs.Segments.{HaveRows};
ghost use Rattle.col_merge.specs.Joined.{HasJoinCause, JoinsBytes, joined_by};
ghost use Rattle.col_merge.specs.Opened.{RefusesColumn, RefusesColumns};
ghost use Rattle.col_merge.specs.Readings.{AllRead, slot_reads};
ghost use Rattle.col_merge.specs.Short.{AddsOpened, IsShortOf, gap_counts, gap_columns};

use crate::joining::joined_bytes;
use crate::opening::open_in;
use col_common::{Buffer, ColumnarError, FileHandle, RowId};
use col_dynamic::DynamicColumn;
use col_file::ColumnarReader;
use col_keys::SlotKey;
use col_order::{MergeRowOrder, StackMergeOrder};
use col_types::ColumnType;
use std::alloc::{AllocError, Global};

// Columns, or none, each of so many rows.
#[derive(Drop)]
pub(crate) struct ShortStack {
    counts: Vec<RowId>,
    columns: Vec<Option<DynamicColumn>>,
}

impl ShortStack {
    // No columns yet.
    fn new(alloc: Global) -> ShortStack
        ensures counts { result.counts.items ≡ [] }
        ensures columns { result.columns.items ≡ [] }
    {
        ShortStack {
            counts: Vec::new(alloc),
            columns: Vec::new(alloc),
        }
    }

    // Adds a column, or none, of so many rows.
    fn push(&mut self, rows: RowId, column: Option<DynamicColumn>) -> Result<(), AllocError>
        ensures counts { OnOk result (self.new.counts.items
            ≡ self.old.counts.items ++ rows ∷ []) }
        ensures columns { OnOk result (self.new.columns.items
            ≡ self.old.columns.items ++ column ∷ []) }
    {
        self.columns.push(column)?;
        self.counts.push(rows)?;
        Ok(())
    }

    // Adds rows that have no column, if there are any.
    fn push_gap(&mut self, rows: RowId) -> Result<(), AllocError>
        ensures counts { OnOk result (self.new.counts.items
            ≡ self.old.counts.items ++ gap_counts rows) }
        ensures columns { OnOk result (self.new.columns.items
            ≡ self.old.columns.items ++ gap_columns rows) }
    {
        if rows == 0 {
            return Ok(());
        }
        self.push(rows, None)
    }

    // The joined column, of the type that is wanted: its type and its bytes.
    pub(crate) fn join(
        &mut self,
        alloc: Global,
        wanted: Option<ColumnType>,
    ) -> Result<Option<(ColumnType, Buffer)>, ColumnarError>
        requires rows { HaveRows self.old.counts.items self.old.columns.items }
        requires few { sum self.old.counts.items < 2 ^ 32 }
        ensures causes { HasJoinCause result }
        ensures joined { (slot : Slot) (parts : List Part) (required : List Required)
            → row_counts parts ≡ self.old.counts.items
            → AreOpened slot parts self.old.columns.items
            → option_map kind_of wanted ≡ required_type required slot
            → JoinsBytes result slot.name (length (all_rows self.old.counts.items))
            (joined_by (stack self.old.counts.items) required parts slot) }
    {
        let order = StackMergeOrder::from_row_counts(alloc, &self.counts)?;
        let merge_row_order = MergeRowOrder::from(order);
        joined_bytes(alloc, &mut self.columns, wanted, &merge_row_order)
    }
}

// Opens the columns of the segments that have one under a slot, which a stack's order counts.
pub(crate) fn open_short<F: FileHandle>(
    alloc: Global,
    columnar_readers: &mut [ColumnarReader<F>],
    slot: &SlotKey,
    segments: &[usize],
    order: &StackMergeOrder,
) -> Result<ShortStack, ColumnarError>
    requires counts { counts_read columnar_readers.old ≡ order.now }
    requires read { AllByRecursion IsRead columnar_readers.old }
    requires segments { AreSegmentsFrom 0 slot.now (keys_read columnar_readers.old) segments.now }
    ensures ok { IfOk result (λ short. IsShortOf slot.now columnar_readers.old
        short.counts.items short.columns.items) }
    ensures err { IfErr result (RefusesColumns slot.now columnar_readers.old columnar_readers.new) }
    ensures kept { AllRead (slot_reads slot.now) columnar_readers.old columnar_readers.new }
{
    let mut short = ShortStack::new(alloc);
    let mut next = 0usize;
    for place in segments {
        let segment = *place;
        // A file that has two columns of the slot is named twice.
        if next <= segment {
            let gap = order.offset(segment) - order.offset(next);
            open_behind(alloc, &mut columnar_readers[segment], slot, gap, &mut short)?;
            next = segment + 1;
        }
    }
    short.push_gap(order.num_rows() - order.offset(next))?;
    Ok(short)
}

// Opens the column of a reader behind rows that have none, where it has one.
fn open_behind<F: FileHandle>(
    alloc: Global,
    reader: &mut ColumnarReader<F>,
    slot: &SlotKey,
    gap: RowId,
    short: &mut ShortStack,
) -> Result<(), ColumnarError>
    ensures ok { OnOk result (AddsOpened slot.now reader.old gap
        short.old.counts.items short.new.counts.items
        short.old.columns.items short.new.columns.items) }
    ensures err { IfErr result (RefusesColumn slot.now reader.old reader.new) }
    ensures kept { Reads (slot_reads slot.now reader.old.keys) reader.old reader.new }
{
    let rows = reader.num_docs();
    short.push_gap(gap)?;
    let column = open_in(alloc, reader, slot)?;
    short.push(rows, column)?;
    Ok(())
}
