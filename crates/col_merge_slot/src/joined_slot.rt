//! Writes the column that a merge makes of a slot.
ghost use Rattle.std.specs.Prelude.{◌≡◌, length, option_map, true, false, if◌then◌else◌, Ok, Err, None, IfOk, IfErr, IfSome};
ghost use Rattle.std.specs.List.{list_any, AllByRecursion};
ghost use Rattle.col_common.specs.declared.error.ColumnarError.TheVariants as refusals;
ghost use Rattle.col_model.specs.ColumnType as types;
ghost use Rattle.col_order.specs.Orders.{counts_of, picks_of};
ghost use Rattle.col_order.specs.RowOrders.{order_of};
ghost use Rattle.col_types.specs.Kinds.{kind_of};
ghost use Rattle.col_merge_column.specs.Limits.{HasNoCodes};
ghost use Rattle.col_merge_column.specs.Slots.{AreNoTexts};
ghost use Rattle.col_merge_slot.specs.JoinedSlots.{AreFlags, IsKeptType, WritesSlot, HasSlotCause, IsSlotJoined};
ghost use Rattle.col_merge_slot.specs.Kept.{kept_flags, IsOwn};
ghost use Rattle.col_merge_slot.specs.Segments.{where_set, kept_of, is_read_as, HaveRows};
ghost use Rattle.col_merge_slot.specs.Taken.{FitAs, TakesKept, TakesSlot};

use crate::kept::kept_segments;
use crate::texts::write_texts;
use crate::told::{cells_are_told, columns_are_counted};
use crate::{FromDynamic, segment_addresses, segment_numbers, slot_type};
use col_common::{ColumnarError, DateTime, Sink};
use col_dynamic::{ColumnType, DynamicColumn};
use col_merge_column::{join_addresses, join_numbers, picked_content_is_joined};
use col_order::{MergeRowOrder, orders_are_picks};
use std::alloc::Global;

/// Writes the column that a merge makes of a slot, of the columns that segments have there, and
/// tells its type: that which is wanted, else that which the columns share that have a value in a
/// picked row. None is written where nothing is wanted and there are no such columns.
pub fn join_slot<K: Sink>(
    alloc: Global,
    columns: &mut [Option<DynamicColumn>],
    wanted: Option<ColumnType>,
    merge_row_order: &MergeRowOrder,
    sink: &mut K,
) -> Result<Option<ColumnType>, ColumnarError>
    requires { HaveRows (counts_of (order_of merge_row_order.now)) columns.old }
    ensures causes { HasSlotCause (K.seen sink.old) (K.seen sink.new) result }
    ensures joined { IsSlotJoined (order_of merge_row_order.now) columns.old
        (option_map kind_of wanted) (K.seen sink.old) (K.seen sink.new) result }
    ensures taken { TakesSlot (option_map kind_of wanted) columns.old
        (kept_flags columns.old (picks_of (order_of merge_row_order.now))) columns.new result }
{
    let kept = kept_segments(alloc, columns, merge_row_order)?;
    join_kept(alloc, columns, &kept, wanted, merge_row_order, sink)
}

// The same, where it is known which columns have a value in a picked row.
fn join_kept<K: Sink>(
    alloc: Global,
    columns: &mut [Option<DynamicColumn>],
    kept: &[bool],
    wanted: Option<ColumnType>,
    merge_row_order: &MergeRowOrder,
    sink: &mut K,
) -> Result<Option<ColumnType>, ColumnarError>
    requires rows { HaveRows (counts_of (order_of merge_row_order.now)) columns.old }
    requires flags { kept.now
        ≡ kept_flags columns.old (picks_of (order_of merge_row_order.now)) }
    ensures causes { HasSlotCause (K.seen sink.old) (K.seen sink.new) result }
    ensures joined { IsSlotJoined (order_of merge_row_order.now) columns.old
        (option_map kind_of wanted) (K.seen sink.old) (K.seen sink.new) result }
    ensures taken { TakesSlot (option_map kind_of wanted) columns.old kept.now columns.new result }
{
    columns_are_counted(columns);
    cells_are_told(columns);
    orders_are_picks(merge_row_order);
    let Some(column_type) = joined_type(columns, kept, wanted)? else {
        return Ok(None);
    };
    write_slot(alloc, columns, kept, column_type, merge_row_order, sink)?;
    Ok(Some(column_type))
}

// The type that is wanted, else the one that columns share whose flags are set; none where there
// are no such columns.
fn joined_type(
    columns: &[Option<DynamicColumn>],
    kept: &[bool],
    wanted: Option<ColumnType>,
) -> Result<Option<ColumnType>, ColumnarError>
    requires { AreFlags kept.now columns.now }
    ensures joined { IsKeptType (option_map kind_of wanted) (kept_of columns.now kept.now) result }
    ensures fits { AllByRecursion IsOwn (kept_of columns.now kept.now) →
        IfOk result (λ found. IfSome found (λ t.
        FitAs (kind_of t) (option_map kind_of wanted) (kept_of columns.now kept.now))) }
    ensures err { IfErr result (λ e. e ≡ refusals.NumericalConflict) }
{
    match wanted {
        Some(column_type) => Ok(Some(column_type)),
        None => kept_type(columns, kept),
    }
}

// The type that columns share whose flags are set.
fn kept_type(
    columns: &[Option<DynamicColumn>],
    kept: &[bool],
) -> Result<Option<ColumnType>, ColumnarError>
    requires { AreFlags kept.now columns.now }
    ensures joined { IsKeptType None (kept_of columns.now kept.now) result }
    ensures fits { AllByRecursion IsOwn (kept_of columns.now kept.now) →
        IfOk result (λ found. IfSome found (λ t.
        FitAs (kind_of t) None (kept_of columns.now kept.now))) }
    ensures err { IfErr result (λ e. e ≡ refusals.NumericalConflict) }
{
    match slot_type(columns, kept) {
        Some(column_type) => Ok(Some(column_type)),
        None => no_type(kept),
    }
}

// No column, where no flag is set; else columns without a common type.
fn no_type(kept: &[bool]) -> Result<Option<ColumnType>, ColumnarError>
    ensures { result
        ≡ (if list_any (λ b. b) kept.now then Err refusals.NumericalConflict else Ok None) }
{
    if has_flag(kept) {
        return Err(ColumnarError::NumericalConflict);
    }
    Ok(None)
}

// Whether a flag is set.
fn has_flag(flags: &[bool]) -> bool
    ensures { result ≡ list_any (λ b. b) flags.now }
{
    for flag in flags {
        if *flag {
            return true;
        }
    }
    false
}

// Writes the column of a type, where each cell is of it.
fn write_slot<K: Sink>(
    alloc: Global,
    columns: &mut [Option<DynamicColumn>],
    kept: &[bool],
    column_type: ColumnType,
    merge_row_order: &MergeRowOrder,
    sink: &mut K,
) -> Result<(), ColumnarError>
    requires rows { HaveRows (counts_of (order_of merge_row_order.now)) columns.old }
    requires flags { length kept.now ≡ length columns.old }
    ensures written { WritesSlot (order_of merge_row_order.now)
        (where_set columns.old kept.now) (kind_of column_type) (K.seen sink.old) (K.seen sink.new)
        result }
    ensures taken { TakesKept (is_read_as (kind_of column_type)) columns.old kept.now columns.new
        result }
{
    match column_type {
        ColumnType::I64 => write_numbers::<i64, K>(alloc, columns, kept, merge_row_order, sink),
        ColumnType::U64 => write_numbers::<u64, K>(alloc, columns, kept, merge_row_order, sink),
        ColumnType::Bool => write_numbers::<bool, K>(alloc, columns, kept, merge_row_order, sink),
        ColumnType::DateTime => {
            write_numbers::<DateTime, K>(alloc, columns, kept, merge_row_order, sink)
        }
        ColumnType::IpAddr => write_addresses(alloc, columns, kept, merge_row_order, sink),
        ColumnType::Bytes => write_texts(alloc, columns, kept, false, merge_row_order, sink),
        ColumnType::Str => write_texts(alloc, columns, kept, true, merge_row_order, sink),
    }
}

// Writes a column of numbers.
fn write_numbers<T, K>(
    alloc: Global,
    columns: &mut [Option<DynamicColumn>],
    kept: &[bool],
    merge_row_order: &MergeRowOrder,
    sink: &mut K,
) -> Result<(), ColumnarError>
where
    T: FromDynamic,
    K: Sink,
    requires rows { HaveRows (counts_of (order_of merge_row_order.now)) columns.old }
    requires flags { length kept.now ≡ length columns.old }
    requires codes { HasNoCodes T.kind }
    requires numbers { AreNoTexts T.cell }
    ensures written { WritesSlot (order_of merge_row_order.now)
        (where_set columns.old kept.now) T.kind (K.seen sink.old) (K.seen sink.new) result }
    ensures taken { TakesKept (is_read_as T.kind) columns.old kept.now columns.new result }
{
    orders_are_picks(merge_row_order);
    picked_content_is_joined::<T>();
    let (indexes, values) = segment_numbers::<T>(alloc, columns, kept, merge_row_order)?;
    join_numbers(alloc, &indexes, &values, merge_row_order, sink)
}

// Writes a column of addresses.
fn write_addresses<K: Sink>(
    alloc: Global,
    columns: &mut [Option<DynamicColumn>],
    kept: &[bool],
    merge_row_order: &MergeRowOrder,
    sink: &mut K,
) -> Result<(), ColumnarError>
    requires rows { HaveRows (counts_of (order_of merge_row_order.now)) columns.old }
    requires flags { length kept.now ≡ length columns.old }
    ensures written { WritesSlot (order_of merge_row_order.now)
        (where_set columns.old kept.now) types.ip (K.seen sink.old) (K.seen sink.new) result }
    ensures taken { TakesKept (is_read_as types.ip) columns.old kept.now columns.new result }
{
    orders_are_picks(merge_row_order);
    picked_content_is_joined::<u64>();
    let (indexes, values) = segment_addresses(alloc, columns, kept, merge_row_order)?;
    join_addresses(alloc, &indexes, &values, merge_row_order, sink)
}
