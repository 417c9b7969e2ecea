//! The order of a sorted merge.
ghost use Rattle.std.specs.Prelude.{◌≡◌, ◌↔◌, ◌⊎◌, ◌≤◌, ◌<◌, ◌^◌, length, map, sum, Err, IfOk, IfErr};
ghost use Rattle.col_common.specs.declared.error.ColumnarError.TheVariants as refusals;
ghost use Rattle.col_model.specs.Category.{category_of, slot_of};
ghost use Rattle.col_types.specs.Kinds.{kind_of};
ghost use Rattle.col_order.specs.Orders.{address_of};
ghost use Rattle.col_merge_slot.specs.Segments.{HaveRows};
ghost use Rattle.col_merge_plan.specs.Slots.{counts_read};
ghost use Rattle.col_merge.specs.Readings.{AllRead, slot_reads};
ghost use Rattle.col_sort.specs.Columns.{AreOf, SortsColumns, rows_by_cells};
ghost use Rattle.col_sort.specs.Sorts.{SortsRows};

use crate::by_columns::rows_by_columns;
use crate::numbers::rows_by_numbers;
use crate::texts::rows_by_texts;
use col_common::{ColumnarError, DateTime, FileHandle, Ipv6Addr, RowAddr, RowId};
use col_dynamic::DynamicColumn;
use col_file::{ColumnarReader, files_are_read};
use col_keys::SlotKey;
use col_merge::{StackFromReaders, open_columns};
use col_merge_plan::row_counts;
use col_order::{ShuffleMergeOrder, StackMergeOrder};
use col_types::ColumnType;
use std::alloc::Global;

/// The order of a merge whose rows stand by the first value of a column: the one that each reader's
/// file has of this name and of the type's category. Numbers, i64 and u64 alike, stand by size,
/// points in time and addresses too, false before true, and texts byte by byte. Rows without a
/// value are least. Rows whose values are equal stand by segment, then by row, also where the order
/// is reversed. It answers TooLarge where 32 bits don't count the rows of all files, before any
/// file is read, and InvalidData where some file's column is outside the grammar. It needs fewer
/// than 2^32 readers, each of which is read at most once.
pub fn sorted_order<F: FileHandle>(
    alloc: Global,
    columnar_readers: &mut [ColumnarReader<F>],
    name: &str,
    column_type: ColumnType,
    reversed: bool,
) -> Result<ShuffleMergeOrder, ColumnarError>
    requires { length columnar_readers.old < 2 ^ 32 }
    ensures answer { SortsRows columnar_readers.old columnar_readers.new result
        (slot_of name.now (kind_of column_type)) reversed }
    ensures too_large { (result ≡ Err refusals.TooLarge)
        ↔ (2 ^ 32 ≤ sum (counts_read columnar_readers.old)) }
    ensures kept { AllRead (slot_reads (slot_of name.now (kind_of column_type)))
        columnar_readers.old columnar_readers.new }
{
    files_are_read(columnar_readers);
    check_rows(alloc, columnar_readers)?;
    let counts = row_counts(alloc, columnar_readers)?;
    let slot = SlotKey::new(alloc, name, column_type)?;
    let mut columns = open_columns(alloc, columnar_readers, &slot)?;
    order_of_columns(alloc, &mut columns, &counts, column_type, reversed)
}

// Refuses more rows than 32 bits count.
fn check_rows<F: FileHandle>(
    alloc: Global,
    columnar_readers: &[ColumnarReader<F>],
) -> Result<(), ColumnarError>
    ensures too_large { (result ≡ Err refusals.TooLarge)
        ↔ (2 ^ 32 ≤ sum (counts_read columnar_readers.now)) }
    ensures err { IfErr result (λ e. (e ≡ refusals.TooLarge) ⊎ (e ≡ refusals.OutOfMemory)) }
{
    StackMergeOrder::stack(alloc, columnar_readers)?;
    Ok(())
}

// The order of all rows of segments by their columns, which are of the type's category.
fn order_of_columns(
    alloc: Global,
    columns: &mut [Option<DynamicColumn>],
    counts: &[RowId],
    column_type: ColumnType,
    reversed: bool,
) -> Result<ShuffleMergeOrder, ColumnarError>
    requires rows { HaveRows counts.now columns.old }
    requires few { sum counts.now < 2 ^ 32 }
    requires segments { length counts.now < 2 ^ 32 }
    ensures ok { IfOk result (λ order. (order.counts ≡ counts.now)
        × (AreOf (category_of (kind_of column_type)) columns.old
        → order.addresses ≡ rows_by_cells reversed columns.old counts.now)) }
    ensures err { IfErr result (λ e. e ≡ refusals.OutOfMemory) }
{
    let rows = rows_in_order(alloc, columns, counts, column_type, reversed)?;
    ShuffleMergeOrder::new(alloc, counts, rows)
}

// All rows of segments by their columns.
fn rows_in_order(
    alloc: Global,
    columns: &mut [Option<DynamicColumn>],
    counts: &[RowId],
    column_type: ColumnType,
    reversed: bool,
) -> Result<Vec<RowAddr>, ColumnarError>
    requires rows { HaveRows counts.now columns.old }
    requires segments { length counts.now < 2 ^ 32 }
    ensures ok { IfOk result (λ rows. SortsColumns (category_of (kind_of column_type)) counts.now
        columns.old reversed (map address_of rows.items)) }
    ensures err { IfErr result (λ e. e ≡ refusals.OutOfMemory) }
{
    match column_type {
        ColumnType::I64 | ColumnType::U64 => {
            Ok(rows_by_numbers(alloc, columns, counts, reversed)?)
        }
        ColumnType::Bool => Ok(rows_by_columns::<bool>(alloc, columns, counts, reversed)?),
        ColumnType::DateTime => Ok(rows_by_columns::<DateTime>(alloc, columns, counts, reversed)?),
        ColumnType::IpAddr => Ok(rows_by_columns::<Ipv6Addr>(alloc, columns, counts, reversed)?),
        ColumnType::Str | ColumnType::Bytes => rows_by_texts(alloc, columns, counts, reversed),
    }
}
