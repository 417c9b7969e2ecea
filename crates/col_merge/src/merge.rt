//! Merges files.
ghost use Rattle.std.specs.Prelude.{◌≡◌, List, length, IfOk};
ghost use Rattle.std.specs.List.{AllByRecursion};
ghost use Rattle.col_model.specs.Category.{Slot};
ghost use Rattle.col_model.specs.Merge.{Required, required_type, merged};
ghost use Rattle.col_file.specs.Readers.{IsRead};
ghost use Rattle.col_order.specs.Orders.{counts_of, picks_of};
ghost use Rattle.col_order.specs.RowOrders.{order_of};
ghost use Rattle.col_merge.specs.Joined.{joined_by};
ghost use Rattle.col_merge.specs.Merges.{MergesFiles, WritesSlots};
ghost use Rattle.col_merge.specs.Readings.{AllRead, AllStay, slots_reads};
ghost use Rattle.col_merge.specs.Short.{ArePlacedFor};
ghost use Rattle.col_merge_plan.specs.RequiredTypes.{known_type};
ghost use Rattle.col_merge_plan.specs.Slots.{counts_read, keys_read, required_of};
ghost use Rattle.col_merge.specs.Turns.{IsLaterSink};

use crate::turn::merge_slots;
use col_common::{ColumnarError, FileHandle, RowId, Sink};
use col_file::{ColumnarReader, files_are_read};
use col_keys::{ColumnarSerializer, SlotKey};
use col_merge_plan::{is_order_of, placed_slots, required_types, slots_of};
use col_order::{MergeRowOrder, orders_are_picks};
use col_types::ColumnType;
use std::alloc::{AllocError, Global};
use std::collections::BTreeMap;

/// Writes a file with the rows that an order picks from the readers' files: a column for each name
/// and category of their columns, where some picked row has a value, and for each one that is
/// required. It refuses in the order of the definition: BadOrder, BadName or RequiredConflict, then
/// slot by slot. Each reader's file is read at most as often as it has columns.
pub fn merge_columnar<F: FileHandle, K: Sink>(
    alloc: Global,
    columnar_readers: &mut [ColumnarReader<F>],
    required_columns: &[(String, ColumnType)],
    merge_row_order: MergeRowOrder,
    output: &mut K,
) -> Result<(), ColumnarError>
    ensures answer { MergesFiles columnar_readers.old columnar_readers.new
        (K.seen output.old) (K.seen output.new) result
        (λ parts. merged parts (required_of required_columns.now) (order_of merge_row_order)) }
    ensures kept { AllStay columnar_readers.old columnar_readers.new }
    ensures sink { IsLaterSink (K.seen output.old) (K.seen output.new) }
{
    files_are_read(columnar_readers);
    orders_are_picks(&merge_row_order);
    let num_rows = merge_row_order.num_rows();
    if !is_order_of(&merge_row_order, columnar_readers) {
        return Err(ColumnarError::BadOrder);
    }
    let types = required_types(alloc, required_columns)?;
    let slots = slots_of(alloc, columnar_readers, required_columns)?;
    let placed = slots_for(alloc, columnar_readers, &merge_row_order)?;
    write_slots(
        alloc,
        columnar_readers,
        &slots,
        &types,
        &merge_row_order,
        &placed,
        num_rows,
        output,
    )
}

// The slots of all columns with their segments, where an order asks for them.
fn slots_for<F: FileHandle>(
    alloc: Global,
    columnar_readers: &[ColumnarReader<F>],
    merge_row_order: &MergeRowOrder,
) -> Result<Vec<(SlotKey, usize)>, AllocError>
    ensures { IfOk result (λ placed. ArePlacedFor (order_of merge_row_order.now)
        (keys_read columnar_readers.now) placed.items) }
{
    match merge_row_order {
        MergeRowOrder::Stack(_) => placed_slots(alloc, columnar_readers),
        MergeRowOrder::Shuffled(_) => Ok(Vec::new(alloc)),
    }
}

// Writes the file of slots, of the types that are required.
fn write_slots<F: FileHandle, K: Sink>(
    alloc: Global,
    columnar_readers: &mut [ColumnarReader<F>],
    slots: &[SlotKey],
    types: &BTreeMap<SlotKey, ColumnType>,
    merge_row_order: &MergeRowOrder,
    placed: &[(SlotKey, usize)],
    num_rows: RowId,
    output: &mut K,
) -> Result<(), ColumnarError>
    requires counts { counts_read columnar_readers.old
        ≡ counts_of (order_of merge_row_order.now) }
    requires read { AllByRecursion IsRead columnar_readers.old }
    requires placed { ArePlacedFor (order_of merge_row_order.now)
        (keys_read columnar_readers.old) placed.now }
    requires rows { num_rows ≡ length (picks_of (order_of merge_row_order.now)) }
    ensures answer { (required : List Required)
        → ((q : Slot) → known_type types.now q ≡ required_type required q)
        → WritesSlots columnar_readers.old columnar_readers.new
        (K.seen output.old) (K.seen output.new) result
        (length (picks_of (order_of merge_row_order.now)))
        (joined_by (order_of merge_row_order.now) required) slots.now }
    ensures kept { AllRead (slots_reads slots.now) columnar_readers.old columnar_readers.new }
    ensures sink { IsLaterSink (K.seen output.old) (K.seen output.new) }
{
    let mut columns = ColumnarSerializer::new(alloc);
    merge_slots(
        alloc,
        columnar_readers,
        slots,
        types,
        merge_row_order,
        placed,
        &mut columns,
        output,
    )?;
    columns.finalize(num_rows, output)
}
