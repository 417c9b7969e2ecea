//! Joins columns that were opened.
ghost use Rattle.std.specs.Prelude.{◌≡◌, length, List, option_map};
ghost use Rattle.col_model.specs.Category.{Slot};
ghost use Rattle.col_model.specs.File.{Part};
ghost use Rattle.col_model.specs.Merge.{Required, required_type, row_counts};
ghost use Rattle.col_order.specs.Orders.{counts_of, picks_of};
ghost use Rattle.col_order.specs.RowOrders.{order_of};
ghost use Rattle.col_types.specs.Kinds.{kind_of};
ghost use Rattle.col_merge.specs.Joined.{HasJoinCause, JoinsBytes, joined_by};
ghost use Rattle.col_merge_slot.specs.JoinedSlots.{AreOpened};
ghost use Rattle.col_merge_slot.specs.Segments.{HaveRows};

use col_common::{Buffer, ColumnarError};
use col_dynamic::DynamicColumn;
use col_merge_slot::join_slot;
use col_order::MergeRowOrder;
use col_types::ColumnType;
use std::alloc::Global;

// The joined column of columns that were opened.
pub(crate) fn joined_bytes(
    alloc: Global,
    columns: &mut [Option<DynamicColumn>],
    wanted: Option<ColumnType>,
    merge_row_order: &MergeRowOrder,
) -> Result<Option<(ColumnType, Buffer)>, ColumnarError>
    requires { HaveRows (counts_of (order_of merge_row_order.now)) columns.old }
    ensures causes { HasJoinCause result }
    ensures joined { (slot : Slot) (parts : List Part) (required : List Required)
        → row_counts parts ≡ counts_of (order_of merge_row_order.now)
        → AreOpened slot parts columns.old
        → option_map kind_of wanted ≡ required_type required slot
        → JoinsBytes result slot.name (length (picks_of (order_of merge_row_order.now)))
        (joined_by (order_of merge_row_order.now) required parts slot) }
{
    let mut bytes = Buffer::new(alloc);
    match join_slot(alloc, columns, wanted, merge_row_order, &mut bytes)? {
        Some(column_type) => Ok(Some((column_type, bytes))),
        None => Ok(None),
    }
}
