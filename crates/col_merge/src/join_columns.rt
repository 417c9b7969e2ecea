//! Joins the columns of a slot.
ghost use Rattle.std.specs.Prelude.{◌≡◌, length, List, option_map};
ghost use Rattle.std.specs.List.{AllByRecursion};
ghost use Rattle.col_model.specs.Merge.{Required, required_type};
ghost use Rattle.col_model.specs.Order.{stack, all_rows};
ghost use Rattle.col_file.specs.Readers.{IsRead};
ghost use Rattle.col_order.specs.Orders.{counts_of, picks_of};
ghost use Rattle.col_order.specs.RowOrders.{order_of};
ghost use Rattle.col_types.specs.Kinds.{kind_of};
ghost use Rattle.col_merge.specs.Joined.{JoinsColumns, joined_by};
ghost use Rattle.col_merge.specs.Readings.{AllRead, slot_reads};
ghost use Rattle.col_merge.specs.Short.{ArePlacedFor};
ghost use Rattle.col_merge_plan.specs.Placed.{ArePlaced};
ghost use Rattle.col_merge_plan.specs.Slots.{counts_read, keys_read};

use crate::joining::joined_bytes;
use crate::opening::open_columns;
use crate::short::open_short;
use col_common::{Buffer, ColumnarError, FileHandle};
use col_file::ColumnarReader;
use col_keys::SlotKey;
use col_merge_plan::segments_of;
use col_order::{MergeRowOrder, StackMergeOrder};
use col_types::ColumnType;
use std::alloc::Global;

// The joined column of a slot, of the type that is required of it: its type and its bytes. A stack
// opens the segments that have the slot, and a shuffle asks each.
pub(crate) fn join_columns<F: FileHandle>(
    alloc: Global,
    columnar_readers: &mut [ColumnarReader<F>],
    slot: &SlotKey,
    wanted: Option<ColumnType>,
    merge_row_order: &MergeRowOrder,
    placed: &[(SlotKey, usize)],
) -> Result<Option<(ColumnType, Buffer)>, ColumnarError>
    requires counts { counts_read columnar_readers.old
        ≡ counts_of (order_of merge_row_order.now) }
    requires read { AllByRecursion IsRead columnar_readers.old }
    requires placed { ArePlacedFor (order_of merge_row_order.now)
        (keys_read columnar_readers.old) placed.now }
    ensures answer { (required : List Required)
        → option_map kind_of wanted ≡ required_type required slot.now
        → JoinsColumns columnar_readers.old columnar_readers.new result slot.now.name
        (length (picks_of (order_of merge_row_order.now)))
        (λ parts. joined_by (order_of merge_row_order.now) required parts slot.now) }
    ensures kept { AllRead (slot_reads slot.now) columnar_readers.old columnar_readers.new }
{
    match merge_row_order {
        MergeRowOrder::Stack(order) => {
            join_short(alloc, columnar_readers, slot, wanted, order, placed)
        }
        MergeRowOrder::Shuffled(_) => {
            join_whole(alloc, columnar_readers, slot, wanted, merge_row_order)
        }
    }
}

// The same of a stack, of the segments that have the slot.
fn join_short<F: FileHandle>(
    alloc: Global,
    columnar_readers: &mut [ColumnarReader<F>],
    slot: &SlotKey,
    wanted: Option<ColumnType>,
    order: &StackMergeOrder,
    placed: &[(SlotKey, usize)],
) -> Result<Option<(ColumnType, Buffer)>, ColumnarError>
    requires counts { counts_read columnar_readers.old ≡ order.now }
    requires read { AllByRecursion IsRead columnar_readers.old }
    requires placed { ArePlaced (keys_read columnar_readers.old) placed.now }
    ensures answer { (required : List Required)
        → option_map kind_of wanted ≡ required_type required slot.now
        → JoinsColumns columnar_readers.old columnar_readers.new result slot.now.name
        (length (all_rows order.now))
        (λ parts. joined_by (stack order.now) required parts slot.now) }
    ensures kept { AllRead (slot_reads slot.now) columnar_readers.old columnar_readers.new }
{
    let segments = segments_of(alloc, placed, slot)?;
    let mut short = open_short(alloc, columnar_readers, slot, &segments, order)?;
    // That 32 bits count the rows is known of a number that is asked.
    let _rows = order.num_rows();
    short.join(alloc, wanted)
}

// The same of any order, of all segments.
fn join_whole<F: FileHandle>(
    alloc: Global,
    columnar_readers: &mut [ColumnarReader<F>],
    slot: &SlotKey,
    wanted: Option<ColumnType>,
    merge_row_order: &MergeRowOrder,
) -> Result<Option<(ColumnType, Buffer)>, ColumnarError>
    requires counts { counts_read columnar_readers.old
        ≡ counts_of (order_of merge_row_order.now) }
    requires read { AllByRecursion IsRead columnar_readers.old }
    ensures answer { (required : List Required)
        → option_map kind_of wanted ≡ required_type required slot.now
        → JoinsColumns columnar_readers.old columnar_readers.new result slot.now.name
        (length (picks_of (order_of merge_row_order.now)))
        (λ parts. joined_by (order_of merge_row_order.now) required parts slot.now) }
    ensures kept { AllRead (slot_reads slot.now) columnar_readers.old columnar_readers.new }
{
    let mut columns = open_columns(alloc, columnar_readers, slot)?;
    joined_bytes(alloc, &mut columns, wanted, merge_row_order)
}
