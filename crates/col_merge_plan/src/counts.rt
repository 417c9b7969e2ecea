//! The row counts of readers, and whether an order is one of these.
ghost use Rattle.std.specs.Prelude.{◌≡◌, IfOk};
ghost use Rattle.std.specs.Bool.{nat_eq};
ghost use Rattle.std.specs.Cmp.Lexicographic.{pointwise};
ghost use Rattle.col_order.specs.Orders.{counts_of};
ghost use Rattle.col_order.specs.RowOrders.{order_of};
ghost use Rattle.col_merge_plan.specs.Slots.{counts_read};

use col_common::{FileHandle, RowId};
use col_file::ColumnarReader;
use col_order::MergeRowOrder;
use std::alloc::{AllocError, Global};

/// Whether the order knows the row counts of the readers.
pub fn is_order_of<F: FileHandle>(
    merge_row_order: &MergeRowOrder,
    columnar_readers: &[ColumnarReader<F>],
) -> bool
    ensures { result ≡ pointwise nat_eq
        (counts_of (order_of merge_row_order.now)) (counts_read columnar_readers.now) }
{
    if merge_row_order.num_segments() != columnar_readers.len() {
        return false;
    }
    for segment in 0..columnar_readers.len() {
        let num_docs = columnar_readers[segment].num_docs();
        if merge_row_order.segment_num_rows(segment) != num_docs {
            return false;
        }
    }
    true
}

/// How many rows each file has.
pub fn row_counts<F: FileHandle>(
    alloc: Global,
    columnar_readers: &[ColumnarReader<F>],
) -> Result<Vec<RowId>, AllocError>
    ensures { IfOk result (λ counts. counts.items ≡ counts_read columnar_readers.now) }
{
    let mut counts = Vec::new(alloc);
    for reader in columnar_readers {
        counts.push(reader.num_docs())?;
    }
    Ok(counts)
}
