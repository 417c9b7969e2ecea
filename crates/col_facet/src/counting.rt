//! How often the numbers of values stand in the rows of documents.
ghost use Rattle.std.specs.Prelude.{◌≡◌, ◌+◌, ◌<◌, ◌==◌, ℕ, true, length, slice_index, count_by, IfOk, OnOk};
ghost use Rattle.col_common.specs.Ascending.{AreBelow, is_rising};
ghost use Rattle.col_column.specs.Columns.{rows_of_values, num_docs_in};
ghost use Rattle.col_facet.specs.Values.{values_in_rows};

use crate::blocks::{read_docs_block, read_list_block};
use crate::table::tally;
use col_column::Column;
use col_common::DocId;
use col_values::{ColumnValues, MonotonicallyMappableToU64};
use std::alloc::{AllocError, Global};

/// How often each of so many numbers from a base on stands in the rows of documents.
pub(crate) fn counts_of_docs<T, V>(
    alloc: Global,
    column: &Column<T, V>,
    docs: &[DocId],
    base: u64,
    len: usize,
) -> Result<Vec<u64>, AllocError>
where
    T: MonotonicallyMappableToU64,
    V: ColumnValues<T>,
    requires rising { is_rising docs.now ≡ true }
    requires below { AreBelow (num_docs_in V.values column.now) docs.now }
    ensures len { IfOk result (λ counts. length counts.items ≡ len) }
    ensures counts { IfOk result (λ counts. (i : ℕ) → i < len → slice_index counts.items i
        ≡ count_by (λ x. T.code x == base + i)
        (values_in_rows (rows_of_values V.values column.now) docs.now)) }
{
    let mut counts = vec![in alloc; 0; len]?;
    count_docs(alloc, column, docs, base, counts.as_mut_slice())?;
    Ok(counts)
}

// Counts the numbers of values in the rows of documents, where none was counted yet.
fn count_docs<T, V>(
    alloc: Global,
    column: &Column<T, V>,
    docs: &[DocId],
    base: u64,
    counts: &mut [u64],
) -> Result<(), AllocError>
where
    T: MonotonicallyMappableToU64,
    V: ColumnValues<T>,
    requires rising { is_rising docs.now ≡ true }
    requires below { AreBelow (num_docs_in V.values column.now) docs.now }
    requires none { (i : ℕ) → slice_index counts.old i ≡ 0 }
    ensures { OnOk result ((i : ℕ) → i < length counts.old → slice_index counts.new i
        ≡ count_by (λ x. T.code x == base + i)
        (values_in_rows (rows_of_values V.values column.now) docs.now)) }
{
    column.values_are_counted();
    // That there are fewer than 2 ^ 32 values is known of the count.
    let _count = column.values().num_vals();
    let mut values = Vec::new(alloc);
    let mut at = 0;
    while at < docs.len() {
        let next = read_docs_block(alloc, column, docs, at, &mut values)?;
        tally(values.as_slice(), base, counts);
        at = next;
    }
    Ok(())
}

/// How often each of so many numbers from a base on stands among all values of a list.
pub(crate) fn counts_of_all<T, V>(
    alloc: Global,
    list: &V,
    base: u64,
    len: usize,
) -> Result<Vec<u64>, AllocError>
where
    T: MonotonicallyMappableToU64,
    V: ColumnValues<T>,
    ensures len { IfOk result (λ counts. length counts.items ≡ len) }
    ensures counts { IfOk result (λ counts. (i : ℕ) → i < len → slice_index counts.items i
        ≡ count_by (λ x. T.code x == base + i) (V.values list.now)) }
{
    let mut counts = vec![in alloc; 0; len]?;
    count_all(alloc, list, base, counts.as_mut_slice())?;
    Ok(counts)
}

// Counts the numbers of all values of a list, where none was counted yet.
fn count_all<T, V>(alloc: Global, list: &V, base: u64, counts: &mut [u64]) -> Result<(), AllocError>
where
    T: MonotonicallyMappableToU64,
    V: ColumnValues<T>,
    requires none { (i : ℕ) → slice_index counts.old i ≡ 0 }
    ensures { OnOk result ((i : ℕ) → i < length counts.old → slice_index counts.new i
        ≡ count_by (λ x. T.code x == base + i) (V.values list.now)) }
{
    let count = list.num_vals() as usize;
    let mut values = Vec::new(alloc);
    let mut at = 0;
    while at < count {
        let next = read_list_block(list, at, count, &mut values)?;
        tally(values.as_slice(), base, counts);
        at = next;
    }
    Ok(())
}
