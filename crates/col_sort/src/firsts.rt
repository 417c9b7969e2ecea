//! Rows by the keys of a column's first values.
ghost use Rattle.std.specs.Prelude.{◌≡◌, ◌+◌, ◌-◌, ◌^◌, ◌<◌, ◌≤◌, length, map, option_map, OnOk};
ghost use Rattle.std.specs.List.{range_with_len};
ghost use Rattle.col_column.specs.Columns.{first_at, rows_of_values, num_docs_in};
ghost use Rattle.col_sort.specs.Firsts.{first_keys};
ghost use Rattle.col_sort_rows.specs.Keys.{added, rows_from};

use crate::key_of::KeyOf;
use col_column::Column;
use col_common::{DocId, RowId};
use col_sort_rows::{KeyedRows, SortKey};
use col_values::ColumnValues;
use std::alloc::{AllocError, Global};

// So many documents are asked at once.
const BLOCK_LEN: u32 = 256;

/// Adds a segment's rows by the keys of a column's first values.
pub(crate) fn push_firsts<T, V, K, M>(
    alloc: Global,
    column: &Column<T, V>,
    keys: &M,
    segment_ord: u32,
    rows: &mut KeyedRows<K>,
) -> Result<(), AllocError>
where
    T: PartialOrd + Copy,
    V: ColumnValues<T>,
    K: SortKey,
    M: KeyOf<T, K>,
    ensures { OnOk result (rows.new ≡ added rows.old (rows_from segment_ord 0
        (first_keys (M.key keys.now) (rows_of_values V.values column.now)))) }
{
    let num_docs = column.num_docs();
    rows.reserve(column.values().num_vals().min(num_docs) as usize)?;
    let mut docs = Vec::new(alloc);
    let mut firsts = Vec::new(alloc);
    let mut at = 0;
    while at < num_docs {
        let next = block_end(at, num_docs);
        read_firsts(column, at, next, &mut docs, &mut firsts)?;
        push_block(keys, segment_ord, at, firsts.as_slice(), rows)?;
        at = next;
    }
    Ok(())
}

// Where the block of documents from one on ends, of so many.
fn block_end(at: DocId, num_docs: RowId) -> DocId
    requires { at < num_docs }
    ensures after { at < result }
    ensures within { result ≤ num_docs }
{
    at + (num_docs - at).min(BLOCK_LEN)
}

// Reads the first values of the documents from one up to another, in place of what was read before.
fn read_firsts<T, V>(
    column: &Column<T, V>,
    start: DocId,
    end: DocId,
    docs: &mut Vec<DocId>,
    firsts: &mut Vec<Option<T>>,
) -> Result<(), AllocError>
where
    T: PartialOrd + Copy,
    V: ColumnValues<T>,
    requires order { start ≤ end }
    requires within { end ≤ num_docs_in V.values column.now }
    ensures { OnOk result (firsts.new.items ≡ map (first_at (rows_of_values V.values column.now))
        (range_with_len start (end - start))) }
{
    let len = (end - start) as usize;
    docs.resize(len, 0)?;
    firsts.resize(len, None)?;
    number_docs(start, docs.as_mut_slice());
    column.first_vals(docs.as_slice(), firsts.as_mut_slice());
    Ok(())
}

// Writes the documents from one on.
fn number_docs(start: DocId, docs: &mut [DocId])
    requires { start + length docs.old < 2 ^ 32 }
    ensures { docs.new ≡ range_with_len start (length docs.old) }
{
    for at in 0..docs.len() {
        docs[at] = start + at as u32;
    }
}

// Adds rows from one on, by the keys of their first values.
fn push_block<T, K, M>(
    keys: &M,
    segment_ord: u32,
    start: DocId,
    firsts: &[Option<T>],
    rows: &mut KeyedRows<K>,
) -> Result<(), AllocError>
where
    T: Copy,
    K: SortKey,
    M: KeyOf<T, K>,
    requires { start + length firsts.now < 2 ^ 32 }
    ensures { OnOk result (rows.new ≡ added rows.old
        (rows_from segment_ord start (map (option_map (M.key keys.now)) firsts.now))) }
{
    for at in 0..firsts.len() {
        rows.push(segment_ord, start + at as u32, first_key(keys, firsts[at]))?;
    }
    Ok(())
}

// The key of a first value, where there is one.
#[inline(always)]
fn first_key<T, K, M: KeyOf<T, K>>(keys: &M, first: Option<T>) -> Option<K>
    ensures { result ≡ option_map (M.key keys.now) first }
{
    match first {
        Some(value) => Some(keys.key_of(value)),
        None => None,
    }
}
