//! Merges one slot after another.
ghost use Rattle.std.specs.Prelude.{◌≡◌, length, List, option_map};
ghost use Rattle.std.specs.List.{AllByRecursion};
ghost use Rattle.col_model.specs.Category.{Slot};
ghost use Rattle.col_model.specs.Merge.{Required, required_type};
ghost use Rattle.col_order.specs.Orders.{counts_of, picks_of};
ghost use Rattle.col_order.specs.RowOrders.{order_of};
ghost use Rattle.col_types.specs.Kinds.{kind_of};
ghost use Rattle.col_file.specs.Readers.{IsRead};
ghost use Rattle.col_keys.specs.Put.{no_columns};
ghost use Rattle.col_merge.specs.Joined.{joined_by};
ghost use Rattle.col_merge.specs.Readings.{AllRead, slot_reads, slots_reads};
ghost use Rattle.col_merge.specs.Short.{ArePlacedFor};
ghost use Rattle.col_merge_plan.specs.RequiredTypes.{known_type};
ghost use Rattle.col_merge_plan.specs.Slots.{counts_read, keys_read};
ghost use Rattle.col_merge.specs.Turns.{IsLaterSink, MergesOne, MergesSlots};

use crate::join_columns::join_columns;
use col_common::{ColumnarError, FileHandle, Sink};
use col_file::ColumnarReader;
use col_keys::{ColumnarSerializer, SlotKey};
use col_order::MergeRowOrder;
use col_types::ColumnType;
use std::alloc::Global;
use std::collections::BTreeMap;

// Merges slots, in order, of the types that are required.
pub(crate) fn merge_slots<F: FileHandle, K: Sink>(
    alloc: Global,
    columnar_readers: &mut [ColumnarReader<F>],
    slots: &[SlotKey],
    types: &BTreeMap<SlotKey, ColumnType>,
    merge_row_order: &MergeRowOrder,
    placed: &[(SlotKey, usize)],
    columns: &mut ColumnarSerializer,
    output: &mut K,
) -> Result<(), ColumnarError>
    requires counts { counts_read columnar_readers.old
        ≡ counts_of (order_of merge_row_order.now) }
    requires read { AllByRecursion IsRead columnar_readers.old }
    requires placed { ArePlacedFor (order_of merge_row_order.now)
        (keys_read columnar_readers.old) placed.now }
    requires none { columns.old ≡ no_columns }
    ensures answer { (required : List Required)
        → ((q : Slot) → known_type types.now q ≡ required_type required q)
        → MergesSlots columnar_readers.old columnar_readers.new columns.new
        (K.seen output.old) (K.seen output.new) result
        (length (picks_of (order_of merge_row_order.now)))
        (joined_by (order_of merge_row_order.now) required) slots.now }
    ensures kept { AllRead (slots_reads slots.now) columnar_readers.old columnar_readers.new }
    ensures sink { IsLaterSink (K.seen output.old) (K.seen output.new) }
{
    for slot in slots {
        let wanted = types.get(slot).copied();
        merge_slot(
            alloc,
            columnar_readers,
            slot,
            wanted,
            merge_row_order,
            placed,
            columns,
            output,
        )?;
    }
    Ok(())
}

// Merges one slot, of the type that is required of it.
fn merge_slot<F: FileHandle, K: Sink>(
    alloc: Global,
    columnar_readers: &mut [ColumnarReader<F>],
    slot: &SlotKey,
    wanted: Option<ColumnType>,
    merge_row_order: &MergeRowOrder,
    placed: &[(SlotKey, usize)],
    columns: &mut ColumnarSerializer,
    output: &mut K,
) -> Result<(), ColumnarError>
    requires counts { counts_read columnar_readers.old
        ≡ counts_of (order_of merge_row_order.now) }
    requires read { AllByRecursion IsRead columnar_readers.old }
    requires placed { ArePlacedFor (order_of merge_row_order.now)
        (keys_read columnar_readers.old) placed.now }
    ensures answer { (required : List Required)
        → option_map kind_of wanted ≡ required_type required slot.now
        → MergesOne columnar_readers.old columnar_readers.new columns.old columns.new
        (K.seen output.old) (K.seen output.new) result
        (length (picks_of (order_of merge_row_order.now)))
        (λ parts. joined_by (order_of merge_row_order.now) required parts slot.now) }
    ensures kept { AllRead (slot_reads slot.now) columnar_readers.old columnar_readers.new }
    ensures sink { IsLaterSink (K.seen output.old) (K.seen output.new) }
{
    match join_columns(
        alloc,
        columnar_readers,
        slot,
        wanted,
        merge_row_order,
        placed,
    )? {
        Some((column_type, bytes)) => columns.put_column(slot.name(), column_type, bytes, output),
        None => Ok(()),
    }
}
