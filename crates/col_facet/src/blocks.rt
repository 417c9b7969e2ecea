//! Values in the rows of documents, read in blocks.
ghost use Rattle.std.specs.Prelude.{◌≡◌, ◌+◌, ◌-◌, ◌^◌, ◌<◌, ◌≤◌, ◌++◌, true, Some, length, map, take, drop, slice_get, OnOk, IfOk};
ghost use Rattle.std.specs.List.{range_with_len};
ghost use Rattle.col_common.specs.Ascending.{AreBelow, is_rising};
ghost use Rattle.col_column.specs.Columns.{rows_of_values, num_docs_in};
ghost use Rattle.col_facet.specs.Values.{values_in_rows};

use col_column::Column;
use col_common::{DocId, RowId};
use col_values::ColumnValues;
use std::alloc::{AllocError, Global};

// So many documents are asked at once.
const BLOCK_LEN: usize = 1024;

// Where the block of documents from a place on ends.
fn block_end(at: usize, len: usize) -> usize
    requires { at < len }
    ensures after { at < result }
    ensures within { result ≤ len }
{
    at + (len - at).min(BLOCK_LEN)
}

/// The values in the rows of documents, one row behind another.
pub(crate) fn values_of_docs<T, V>(
    alloc: Global,
    column: &Column<T, V>,
    docs: &[DocId],
) -> Result<Vec<T>, AllocError>
where
    T: PartialOrd + Copy,
    V: ColumnValues<T>,
    requires rising { is_rising docs.now ≡ true }
    requires below { AreBelow (num_docs_in V.values column.now) docs.now }
    ensures { IfOk result (λ values. values.items
        ≡ values_in_rows (rows_of_values V.values column.now) docs.now) }
{
    let mut values = Vec::new(alloc);
    let mut at = 0;
    while at < docs.len() {
        let next = block_end(at, docs.len());
        push_values(alloc, column, &docs[at..next], &mut values)?;
        at = next;
    }
    Ok(values)
}

/// Reads the values in the rows of the next block of documents, from a place on, in place of what
/// was read before, and gives the place behind it.
pub(crate) fn read_docs_block<T, V>(
    alloc: Global,
    column: &Column<T, V>,
    docs: &[DocId],
    at: usize,
    values: &mut Vec<T>,
) -> Result<usize, AllocError>
where
    T: PartialOrd + Copy,
    V: ColumnValues<T>,
    requires rising { is_rising docs.now ≡ true }
    requires below { AreBelow (num_docs_in V.values column.now) docs.now }
    requires inside { at < length docs.now }
    ensures behind { IfOk result (λ next. (at < next) × (next ≤ length docs.now)) }
    ensures values { IfOk result (λ next. values.new.items ≡ values_in_rows
        (rows_of_values V.values column.now) (take (next - at) (drop at docs.now))) }
{
    let next = block_end(at, docs.len());
    values.clear();
    push_values(alloc, column, &docs[at..next], values)?;
    Ok(next)
}

/// The same of a list of so many values.
pub(crate) fn read_list_block<T, V>(
    list: &V,
    at: usize,
    count: usize,
    values: &mut Vec<T>,
) -> Result<usize, AllocError>
where
    T: PartialOrd + Copy,
    V: ColumnValues<T>,
    requires inside { at < count }
    requires all { count ≡ length (V.values list.now) }
    requires few { count < 2 ^ 32 }
    ensures behind { IfOk result (λ next. (at < next) × (next ≤ count)) }
    ensures values { IfOk result (λ next.
        values.new.items ≡ take (next - at) (drop at (V.values list.now))) }
{
    let next = block_end(at, count);
    if values.len() == next - at {
        list.get_range(at as u64, values.as_mut_slice());
        return Ok(next);
    }
    values.clear();
    push_range(list, at as u32, next as u32, values)?;
    Ok(next)
}

// Adds the values in the rows of documents.
fn push_values<T, V>(
    alloc: Global,
    column: &Column<T, V>,
    docs: &[DocId],
    values: &mut Vec<T>,
) -> Result<(), AllocError>
where
    T: PartialOrd + Copy,
    V: ColumnValues<T>,
    requires rising { is_rising docs.now ≡ true }
    requires below { AreBelow (num_docs_in V.values column.now) docs.now }
    ensures { OnOk result (values.new.items
        ≡ values.old.items ++ values_in_rows (rows_of_values V.values column.now) docs.now) }
{
    if docs.is_empty() {
        return Ok(());
    }
    // That there are fewer than 2 ^ 32 documents is known of the count.
    let _count = column.num_docs();
    let start = docs[0];
    let end = docs[docs.len() - 1] + 1;
    // Documents that ascend are neighbours where the last is as far as they are many.
    if end as usize == start as usize + docs.len() {
        return push_rows(column, start, end, values);
    }
    push_scattered(alloc, column, docs, values)
}

// The same of documents that don't stand one behind another.
fn push_scattered<T, V>(
    alloc: Global,
    column: &Column<T, V>,
    docs: &[DocId],
    values: &mut Vec<T>,
) -> Result<(), AllocError>
where
    T: PartialOrd + Copy,
    V: ColumnValues<T>,
    requires { AreBelow (num_docs_in V.values column.now) docs.now }
    ensures { OnOk result (values.new.items
        ≡ values.old.items ++ values_in_rows (rows_of_values V.values column.now) docs.now) }
{
    column.values_are_counted();
    let mut doc_ids = Vec::new(alloc);
    let mut row_ids = Vec::new(alloc);
    match column.row_ids_for_docs(docs, &mut doc_ids, &mut row_ids) {
        Ok(()) => push_positions(column.values(), row_ids.as_slice(), values),
        Err(_) => Err(AllocError),
    }
}

// Adds the values in the rows of documents from one up to another.
fn push_rows<T, V>(
    column: &Column<T, V>,
    start: DocId,
    end: DocId,
    values: &mut Vec<T>,
) -> Result<(), AllocError>
where
    T: PartialOrd + Copy,
    V: ColumnValues<T>,
    requires order { start ≤ end }
    requires within { end ≤ num_docs_in V.values column.now }
    ensures { OnOk result (values.new.items ≡ values.old.items
        ++ values_in_rows (rows_of_values V.values column.now)
        (range_with_len start (end - start))) }
{
    column.values_are_counted();
    let rows = column.index().docid_range_to_rowids(start..end);
    push_range(column.values(), rows.start, rows.end, values)
}

/// Adds the values at positions from one up to another.
pub(crate) fn push_range<T, V>(
    list: &V,
    start: RowId,
    end: RowId,
    values: &mut Vec<T>,
) -> Result<(), AllocError>
where
    T: PartialOrd + Copy,
    V: ColumnValues<T>,
    requires { end ≤ length (V.values list.now) }
    ensures { OnOk result (values.new.items
        ≡ values.old.items ++ take (end - start) (drop start (V.values list.now))) }
{
    if start >= end {
        return Ok(());
    }
    let from = values.len();
    values.resize(from + (end - start) as usize, list.get_val(start))?;
    read_range(list, start, values.as_mut_slice(), from);
    Ok(())
}

// Writes the values from a position on to the end of others, from a place on.
fn read_range<T, V>(list: &V, start: RowId, values: &mut [T], from: usize)
where
    T: PartialOrd + Copy,
    V: ColumnValues<T>,
    requires room { from ≤ length values.old }
    requires within { start + (length values.old - from) ≤ length (V.values list.now) }
    ensures { values.new ≡ take from values.old
        ++ take (length values.old - from) (drop start (V.values list.now)) }
{
    list.get_range(u64::from(start), &mut values[from..]);
}

// Adds the values at positions.
fn push_positions<T, V>(list: &V, row_ids: &[RowId], values: &mut Vec<T>) -> Result<(), AllocError>
where
    T: PartialOrd + Copy,
    V: ColumnValues<T>,
    requires { AreBelow (length (V.values list.now)) row_ids.now }
    ensures { OnOk result (map Some values.new.items
        ≡ map Some values.old.items ++ map (slice_get (V.values list.now)) row_ids.now) }
{
    if row_ids.is_empty() {
        return Ok(());
    }
    let start = values.len();
    values.resize(start + row_ids.len(), list.get_val(row_ids[0]))?;
    read_positions(list, row_ids, values.as_mut_slice(), start);
    Ok(())
}

// Writes the values at positions to the end of others, from a place on.
fn read_positions<T, V>(list: &V, row_ids: &[RowId], values: &mut [T], start: usize)
where
    T: PartialOrd + Copy,
    V: ColumnValues<T>,
    requires below { AreBelow (length (V.values list.now)) row_ids.now }
    requires room { start + length row_ids.now ≡ length values.old }
    ensures { map Some values.new
        ≡ map Some (take start values.old) ++ map (slice_get (V.values list.now)) row_ids.now }
{
    list.get_vals(row_ids, &mut values[start..]);
}
