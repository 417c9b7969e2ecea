//! The order that stacks readers' files.
ghost use Rattle.std.specs.Prelude.{◌≡◌, ◌↔◌, ◌⊎◌, ◌^◌, ◌≤◌, ℕ, List, sum, nat_lt, Err, IfOk, IfErr};
ghost use Rattle.col_common.specs.declared.error.ColumnarError.TheVariants as refusals;
ghost use Rattle.col_common.specs.Reading.{only_if};
ghost use Rattle.col_merge_plan.specs.Slots.{counts_read};

use col_common::{ColumnarError, FileHandle, RowId};
use col_file::ColumnarReader;
use col_merge_plan::row_counts;
use col_order::StackMergeOrder;
use std::alloc::Global;

/// An order of all rows, segment after segment, that files give.
pub trait StackFromReaders: Sized {
    /// The row counts of the segments.
    ghost row_counts: { Self → List ℕ };

    /// The order of all rows of the files, file after file. It answers TooLarge exactly where 32
    /// bits don't count them.
    fn stack<F: FileHandle>(
        alloc: Global,
        columnar_readers: &[ColumnarReader<F>],
    ) -> Result<Self, ColumnarError>
        ensures ok { IfOk result (λ order. row_counts order ≡ counts_read columnar_readers.now) }
        ensures too_large { (result ≡ Err refusals.TooLarge)
            ↔ (2 ^ 32 ≤ sum (counts_read columnar_readers.now)) }
        ensures err { IfErr result (λ e. (e ≡ refusals.TooLarge) ⊎ (e ≡ refusals.OutOfMemory)) };
}

impl StackFromReaders for StackMergeOrder {
    ghost row_counts = { λ counts. counts };

    fn stack<F: FileHandle>(
        alloc: Global,
        columnar_readers: &[ColumnarReader<F>],
    ) -> Result<StackMergeOrder, ColumnarError> {
        if total(columnar_readers).is_none() {
            return Err(ColumnarError::TooLarge);
        }
        let counts = row_counts(alloc, columnar_readers)?;
        StackMergeOrder::from_row_counts(alloc, &counts)
    }
}

// How many rows the files have in all; none where 32 bits don't count them.
fn total<F: FileHandle>(columnar_readers: &[ColumnarReader<F>]) -> Option<RowId>
    ensures { let rows = sum (counts_read columnar_readers.now) in
        result ≡ only_if (nat_lt rows (2 ^ 32)) rows }
{
    let mut sum = 0u32;
    for reader in columnar_readers {
        sum = sum.checked_add(reader.num_docs())?;
    }
    Some(sum)
}
