//! Writes indexes again.
ghost use Rattle.std.specs.Prelude.{◌≡◌, ◌∷◌, [], map, IfOk, IfErr};
ghost use Rattle.col_common.specs.declared.error.ColumnarError.TheVariants as refusals;
ghost use Rattle.col_index.specs.Indexes.{shape_of};
ghost use Rattle.col_index.specs.Versions.{version_number};
ghost use Rattle.col_model.specs.Index.{counts};
ghost use Rattle.col_model.specs.Order.{stack};
ghost use Rattle.col_model.specs.Version.{current_version};
ghost use Rattle.col_order.specs.RowOrders.{order_of};
ghost use Rattle.col_upgrade.specs.Again.{IsCountable};
ghost use Rattle.col_upgrade.specs.Indexes.{IsAlone, CountsAlone};

use bytes::Bytes;
use col_common::{Buffer, ColumnarError, RowId};
use col_index::{ColumnIndex, MergeRowOrder, StackMergeOrder, Version, open_column_index};
use col_indexer::{merge_column_index, serialize_column_index};
use std::alloc::Global;

// The bytes of an index of so many rows, in the current version.
pub(crate) fn index_again(
    alloc: Global,
    bytes: Bytes,
    format_version: Version,
    num_rows: RowId,
) -> Result<Buffer, ColumnarError>
    requires { IsCountable bytes (version_number format_version) num_rows }
    ensures ok { IfOk result (λ made. counts made current_version num_rows
        ≡ counts bytes (version_number format_version) num_rows) }
    ensures err { IfErr result (λ e. e ≡ refusals.OutOfMemory) }
{
    let index = open_column_index(alloc, bytes, format_version)?;
    let indexes = [index];
    spelled(alloc, &indexes, num_rows)
}

// The bytes of the only index of a list: a stack of one segment has the cardinality of its own.
fn spelled(
    alloc: Global,
    column_indexes: &[ColumnIndex],
    num_rows: RowId,
) -> Result<Buffer, ColumnarError>
    requires { IsAlone num_rows (map shape_of column_indexes.now) }
    ensures ok { IfOk result (CountsAlone num_rows (map shape_of column_indexes.now)) }
    ensures err { IfErr result (λ e. e ≡ refusals.OutOfMemory) }
{
    let order = all_rows(alloc, num_rows)?;
    let index = merge_column_index(column_indexes, &order);
    let mut made = Buffer::new(alloc);
    serialize_column_index(alloc, index, &mut made)?;
    Ok(made)
}

// The order of all rows of one segment.
fn all_rows(alloc: Global, num_rows: RowId) -> Result<MergeRowOrder, ColumnarError>
    ensures ok { IfOk result (λ order. order_of order ≡ stack (num_rows ∷ [])) }
    ensures err { IfErr result (λ e. e ≡ refusals.OutOfMemory) }
{
    let order = StackMergeOrder::from_row_counts(alloc, &[num_rows])?;
    Ok(MergeRowOrder::from(order))
}
