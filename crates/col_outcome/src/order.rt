//! The order of a script's merge.
ghost use Rattle.std.specs.Prelude.{map, option_map, Some};
ghost use Rattle.col_model.specs.Order.{stack, shuffle};
ghost use Rattle.col_program.specs.Script as model;
ghost use Rattle.col_order.specs.Orders.{address_of};
ghost use Rattle.col_lines.specs.RowOrders.{row_order_of, sort_key_of};
ghost use Rattle.col_merge_plan.specs.Slots.{counts_read};
ghost use Rattle.col_outcome.specs.Ordered.{IsOrder, TakesOrder};

use col_common::{ColumnarError, FileHandle, RowAddr};
use col_file::{ColumnarReader, files_are_read};
use col_lines::{RowOrder, SortKey};
use col_merge_plan::row_counts;
use col_order::{MergeRowOrder, ShuffleMergeOrder, StackMergeOrder};
use col_sort::sorted_order;
use std::alloc::Global;

/// The rows of files that a script names, or all of them: sorted, or file after file.
pub fn merge_row_order<F: FileHandle>(
    alloc: Global,
    readers: &mut [ColumnarReader<F>],
    order: Option<RowOrder>,
) -> Result<MergeRowOrder, ColumnarError>
    ensures { TakesOrder (option_map row_order_of order) readers.old readers.new result }
{
    files_are_read(readers);
    match order {
        Some(RowOrder::Named(rows)) => shuffled(alloc, readers, rows),
        Some(RowOrder::Sorted(key)) => sorted(alloc, readers, &key),
        None => stacked(alloc, readers),
    }
}

fn shuffled<F: FileHandle>(
    alloc: Global,
    readers: &[ColumnarReader<F>],
    rows: Vec<RowAddr>,
) -> Result<MergeRowOrder, ColumnarError>
    ensures { let counts = counts_read readers.now in
        IsOrder (shuffle counts (map address_of rows.items)) counts result }
{
    let counts = row_counts(alloc, readers)?;
    let order = ShuffleMergeOrder::new(alloc, &counts, rows)?;
    Ok(MergeRowOrder::from(order))
}

fn stacked<F: FileHandle>(
    alloc: Global,
    readers: &[ColumnarReader<F>],
) -> Result<MergeRowOrder, ColumnarError>
    ensures { let counts = counts_read readers.now in IsOrder (stack counts) counts result }
{
    let counts = row_counts(alloc, readers)?;
    let order = StackMergeOrder::from_row_counts(alloc, &counts)?;
    Ok(MergeRowOrder::from(order))
}

fn sorted<F: FileHandle>(
    alloc: Global,
    readers: &mut [ColumnarReader<F>],
    key: &SortKey,
) -> Result<MergeRowOrder, ColumnarError>
    ensures { TakesOrder (Some (model.sorted (sort_key_of key.now)))
        readers.old readers.new result }
{
    // A program never has as many files: its words and its script are too short for them.
    if readers.len() > u32::MAX as usize {
        return Err(ColumnarError::OutOfMemory);
    }
    let order = sorted_order(
        alloc,
        readers,
        key.name.as_str(),
        key.column_type,
        key.reversed,
    )?;
    Ok(MergeRowOrder::from(order))
}
