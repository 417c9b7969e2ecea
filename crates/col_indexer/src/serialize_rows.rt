//! Writes rows with a value: in runs where that pays, else one by one.
ghost use Rattle.std.specs.Prelude.{◌≡◌, ◌∷◌, ◌<◌, ◌^◌, length, IfOk};
ghost use Rattle.col_common.specs.Serializing.{Serializes, done};
ghost use Rattle.col_common.specs.VInt.{vint_bytes};
ghost use Rattle.col_model.specs.Index.{runs_of};
ghost use Rattle.col_model.specs.Positions.{rows_with_value};
ghost use Rattle.col_indexer.specs.RowViews.{rows_of};
ghost use Rattle.col_indexer.specs.Spelling.{listed_bytes, run_bytes, run_list_bytes};
ghost use Rattle.col_indexer.specs.Spelling.{row_set_bytes, row_set_by, AreRowsOf32};
ghost use Rattle.col_indexer.specs.Stacks.{stacked_counts};

use crate::runs::{Runs, count_runs, runs_pay};
use crate::serialize::{collected_with_capacity, serialize_list};
use crate::stacked_runs::index_runs;
use crate::{RowIds, StackedRowIds};
use col_common::{ColumnarError, Iterable, RowId, Sink, VInt, serialize_bytes};
use col_index::OptionalIndex;
use std::alloc::Global;

// The form of rows one by one.
const LISTED: u8 = 0;

// The form of rows in runs.
const IN_RUNS: u8 = 1;

/// Writes rows that rise, of so many rows, and tells how many bytes they take.
pub(crate) fn serialize_row_set<K: Sink>(
    alloc: Global,
    rows: &RowIds<'_>,
    num_rows: RowId,
    sink: &mut K,
) -> Result<u64, ColumnarError>
    requires { AreRowsOf32 (row_set_by num_rows (rows_of rows.now)) }
    ensures ok { Serializes (K.seen sink.old) (K.seen sink.new) (done result)
        (row_set_bytes (row_set_by num_rows (rows_of rows.now))) }
    ensures length { IfOk result (λ n.
        n ≡ length (row_set_bytes (row_set_by num_rows (rows_of rows.now)))) }
{
    match rows {
        RowIds::Slice(rows) => serialize_rows(alloc, rows, num_rows, sink),
        RowIds::Index(index) => serialize_index_rows(alloc, index, num_rows, sink),
        RowIds::Stacked(rows) => serialize_stacked_rows(alloc, rows, num_rows, sink),
        RowIds::Shuffled(rows) => {
            serialize_collected_rows(alloc, rows, rows.max_len(), num_rows, sink)
        }
    }
}

// Writes rows that are walked once, with room for so many, and tells how many bytes they take.
fn serialize_collected_rows<I: Iterable<RowId>, K: Sink>(
    alloc: Global,
    rows: &I,
    capacity: usize,
    num_rows: RowId,
    sink: &mut K,
) -> Result<u64, ColumnarError>
    requires { AreRowsOf32 (row_set_by num_rows (I.items rows.now)) }
    ensures ok { Serializes (K.seen sink.old) (K.seen sink.new) (done result)
        (row_set_bytes (row_set_by num_rows (I.items rows.now))) }
    ensures length { IfOk result (λ n.
        n ≡ length (row_set_bytes (row_set_by num_rows (I.items rows.now)))) }
{
    let rows: Vec<RowId> = collected_with_capacity(alloc, rows, capacity)?;
    serialize_rows(alloc, rows.as_slice(), num_rows, sink)
}

// Writes the rows of an index, and tells how many bytes they take. Rows in runs aren't listed.
fn serialize_index_rows<K: Sink>(
    alloc: Global,
    index: &OptionalIndex,
    num_rows: RowId,
    sink: &mut K,
) -> Result<u64, ColumnarError>
    requires { AreRowsOf32 (row_set_by num_rows index.now.rows) }
    ensures ok { Serializes (K.seen sink.old) (K.seen sink.new) (done result)
        (row_set_bytes (row_set_by num_rows index.now.rows)) }
    ensures length { IfOk result (λ n.
        n ≡ length (row_set_bytes (row_set_by num_rows index.now.rows))) }
{
    if let Some(runs) = index_runs(alloc, index)? {
        if runs_pay(runs.len(), runs.num_rows()) {
            return serialize_runs(alloc, &runs, num_rows, sink);
        }
    }
    let capacity = index.num_non_nulls() as usize;
    serialize_collected_rows(alloc, &index.iter_non_null_docs(), capacity, num_rows, sink)
}

// Writes the rows of indexes one behind another, and tells how many bytes they take.
fn serialize_stacked_rows<K: Sink>(
    alloc: Global,
    rows: &StackedRowIds<'_>,
    num_rows: RowId,
    sink: &mut K,
) -> Result<u64, ColumnarError>
    requires { AreRowsOf32 (row_set_by num_rows (rows_with_value (stacked_counts rows.now))) }
    ensures ok { Serializes (K.seen sink.old) (K.seen sink.new) (done result)
        (row_set_bytes (row_set_by num_rows (rows_with_value (stacked_counts rows.now)))) }
    ensures length { IfOk result (λ n. n ≡ length
        (row_set_bytes (row_set_by num_rows (rows_with_value (stacked_counts rows.now))))) }
{
    if let Some(runs) = rows.collected_runs(alloc)? {
        if runs_pay(runs.len(), runs.num_rows()) {
            return serialize_runs(alloc, &runs, num_rows, sink);
        }
    }
    let rows = rows.collected(alloc)?;
    serialize_rows(alloc, rows.as_slice(), num_rows, sink)
}

// Writes rows in memory, in the form that pays, and tells how many bytes they take.
fn serialize_rows<K: Sink>(
    alloc: Global,
    rows: &[RowId],
    num_rows: RowId,
    sink: &mut K,
) -> Result<u64, ColumnarError>
    requires { AreRowsOf32 (row_set_by num_rows rows.now) }
    ensures ok { Serializes (K.seen sink.old) (K.seen sink.new) (done result)
        (row_set_bytes (row_set_by num_rows rows.now)) }
    ensures length { IfOk result (λ n. n ≡ length (row_set_bytes (row_set_by num_rows rows.now))) }
{
    let num_runs = count_runs(rows);
    if runs_pay(num_runs, rows.len()) {
        return serialize_in_runs(alloc, rows, num_runs, num_rows, sink);
    }
    serialize_listed(alloc, rows, num_rows, sink)
}

// Writes rows one by one, behind the byte of that form.
fn serialize_listed<K: Sink>(
    alloc: Global,
    rows: &[RowId],
    num_rows: RowId,
    sink: &mut K,
) -> Result<u64, ColumnarError>
    requires { length rows.now < 2 ^ 32 }
    ensures ok { Serializes (K.seen sink.old) (K.seen sink.new) (done result)
        (0 ∷ listed_bytes (row_set_by num_rows rows.now)) }
    ensures length { IfOk result (λ n.
        n ≡ length (0 ∷ listed_bytes (row_set_by num_rows rows.now))) }
{
    let front_len = serialize_front(LISTED, num_rows, sink)?;
    let len = serialize_list(alloc, &rows, sink)?;
    Ok(front_len + len)
}

// Writes the runs of rows, with room for so many, behind the byte of that form.
fn serialize_in_runs<K: Sink>(
    alloc: Global,
    rows: &[RowId],
    num_runs: usize,
    num_rows: RowId,
    sink: &mut K,
) -> Result<u64, ColumnarError>
    requires { AreRowsOf32 (row_set_by num_rows rows.now) }
    ensures ok { Serializes (K.seen sink.old) (K.seen sink.new) (done result)
        (1 ∷ run_bytes num_rows (runs_of rows.now)) }
    ensures length { IfOk result (λ n. n ≡ length (1 ∷ run_bytes num_rows (runs_of rows.now))) }
{
    let runs = Runs::of_rows(alloc, rows, num_runs)?;
    serialize_runs(alloc, &runs, num_rows, sink)
}

// Writes runs, behind the byte of their form.
fn serialize_runs<K: Sink>(
    alloc: Global,
    runs: &Runs,
    num_rows: RowId,
    sink: &mut K,
) -> Result<u64, ColumnarError>
    requires { length runs.now < 2 ^ 32 }
    ensures ok { Serializes (K.seen sink.old) (K.seen sink.new) (done result)
        (1 ∷ run_bytes num_rows runs.now) }
    ensures length { IfOk result (λ n. n ≡ length (1 ∷ run_bytes num_rows runs.now)) }
{
    let front_len = serialize_front(IN_RUNS, num_rows, sink)?;
    let len = serialize_run_lists(alloc, runs, sink)?;
    Ok(front_len + len)
}

// Writes where runs start, how long they are, and how many bytes the starts take.
fn serialize_run_lists<K: Sink>(
    alloc: Global,
    runs: &Runs,
    sink: &mut K,
) -> Result<u64, ColumnarError>
    requires { length runs.now < 2 ^ 32 }
    ensures ok { Serializes (K.seen sink.old) (K.seen sink.new) (done result)
        (run_list_bytes runs.now) }
    ensures length { IfOk result (λ n. n ≡ length (run_list_bytes runs.now)) }
{
    let starts = runs.starts();
    let lengths = runs.lengths();
    let starts_len = serialize_list(alloc, &starts, sink)?;
    let lengths_len = serialize_list(alloc, &lengths, sink)?;
    let end = starts_len.to_le_bytes();
    serialize_bytes(sink, &end)?;
    Ok(starts_len + lengths_len + end.len() as u64)
}

// Writes the byte of a form and a row count, and tells how many bytes they take.
fn serialize_front<K: Sink>(form: u8, num_rows: RowId, sink: &mut K) -> Result<u64, ColumnarError>
    ensures ok { Serializes (K.seen sink.old) (K.seen sink.new) (done result)
        (form ∷ vint_bytes num_rows) }
    ensures length { IfOk result (λ n. n ≡ length (form ∷ vint_bytes num_rows)) }
{
    serialize_bytes(sink, &[form])?;
    let count = VInt(u64::from(num_rows));
    count.serialize(sink)?;
    Ok(1 + count.num_bytes())
}
