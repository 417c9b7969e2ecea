//! Documents by the values of a column.
ghost use Rattle.std.specs.Prelude.{◌≡◌, ◌==◌, [], ℕ, not, nat_lt, length, slice_index, IsTrue, IfOk};
ghost use Rattle.std.specs.List.{list_any};
ghost use Rattle.col_common.specs.Replacing.{Replaces};
ghost use Rattle.col_column.specs.Columns.{content_seen, row_at, row_count, rows_of_values};
ghost use Rattle.col_dynamic.specs.Dynamic.{type_of, content_of};
ghost use Rattle.col_index.specs.Indexes.{shape_of};
ghost use Rattle.col_index.specs.MultiValues.{value_counts_of};
ghost use Rattle.col_model.specs.ColumnType as types;
ghost use Rattle.col_model.specs.Index.{set_counts};
ghost use Rattle.col_model.specs.Lookup.{docs_between, is_between, row_of};
ghost use Rattle.col_model.specs.Positions.{count_in};
ghost use Rattle.col_model.specs.Table.{number, text};
ghost use Rattle.col_types.specs.Cells.{unsigned_cell, bool_cell};
ghost use Rattle.col_program.specs.Queries.{cell_of};
ghost use Rattle.col_query.specs.Sets.{IsSetOf};
ghost use Rattle.col_questions.specs.Steps.{end_of, is_end_of, is_term};

use crate::doc_set::DocSet;
use col_column::{Column, lookups_are_those_of_cells};
use col_common::{ColumnarError, DateTime, DocId, Ipv6Addr, Iterable};
use col_dynamic::DynamicColumn;
use col_index::{ColumnIndex, MultiValueIndex, OptionalIndex};
use col_questions::QueryValue;
use col_types::HasAssociatedColumnType;
use col_values::ColumnValues;
use std::alloc::{AllocError, Global};
use std::ops::Range;

// ---- documents with a value

// The documents with a value. Where each document has one, or none has, nothing is listed.
pub(crate) fn docs_with_value(
    alloc: Global,
    column: &DynamicColumn,
    num_docs: u32,
) -> Result<DocSet, AllocError>
    ensures { length (content_of column.now).rows ≡ num_docs → IfOk result
        (IsSetOf num_docs (λ d. nat_lt 0 (length (row_of (content_of column.now) d)))) }
{
    match column {
        DynamicColumn::Bool(flags) => docs_held(alloc, flags, num_docs),
        DynamicColumn::I64(numbers) => docs_held(alloc, numbers, num_docs),
        DynamicColumn::U64(numbers) => docs_held(alloc, numbers, num_docs),
        DynamicColumn::IpAddr(addresses) => docs_held(alloc, addresses, num_docs),
        DynamicColumn::DateTime(times) => docs_held(alloc, times, num_docs),
        DynamicColumn::Bytes(terms) => docs_held(alloc, terms.ords(), num_docs),
        DynamicColumn::Str(texts) => docs_held(alloc, texts.bytes_column().ords(), num_docs),
    }
}

// The same of a column of one type.
fn docs_held<T, V>(
    alloc: Global,
    column: &Column<T, V>,
    num_docs: u32,
) -> Result<DocSet, AllocError>
where
    T: PartialOrd + Copy,
    V: ColumnValues<T>,
    ensures { length (rows_of_values V.values column.now) ≡ num_docs → IfOk result
        (IsSetOf num_docs
        (λ d. nat_lt 0 (length (row_at (rows_of_values V.values column.now) d)))) }
{
    column.values_are_counted();
    docs_counted(alloc, column.index(), num_docs)
}

// The documents of which an index counts a value.
fn docs_counted(alloc: Global, index: &ColumnIndex, num_docs: u32) -> Result<DocSet, AllocError>
    ensures { (n : ℕ) → row_count (shape_of index.now) n ≡ num_docs → IfOk result
        (IsSetOf num_docs (λ d. not (count_in (shape_of index.now) d == 0))) }
{
    match index {
        ColumnIndex::Empty { .. } => Ok(DocSet::none(alloc)),
        ColumnIndex::Full => Ok(DocSet::all(alloc)),
        ColumnIndex::Optional(index) => docs_of_optional(alloc, index, num_docs),
        ColumnIndex::Multivalued(index) => docs_of_multivalued(alloc, index, num_docs),
    }
}

// The documents of an index of at most one value each.
fn docs_of_optional(
    alloc: Global,
    index: &OptionalIndex,
    num_docs: u32,
) -> Result<DocSet, AllocError>
    ensures { index.now.num_rows ≡ num_docs → IfOk result
        (IsSetOf num_docs (λ d. not (slice_index (set_counts index.now) d == 0))) }
{
    index.rows_rise();
    let docs = listed(alloc, &index.iter_non_null_docs())?;
    DocSet::from_list(alloc, docs, num_docs)
}

// The documents of an index of any number of values each.
fn docs_of_multivalued(
    alloc: Global,
    index: &MultiValueIndex,
    num_docs: u32,
) -> Result<DocSet, AllocError>
    ensures { length (value_counts_of index.now) ≡ num_docs → IfOk result
        (IsSetOf num_docs (λ d. not (slice_index (value_counts_of index.now) d == 0))) }
{
    let docs = listed(alloc, &index.iter_non_null_docs())?;
    DocSet::from_list(alloc, docs, num_docs)
}

// The documents of a walk.
fn listed<I: Iterable<DocId>>(alloc: Global, rows: &I) -> Result<Vec<DocId>, AllocError>
    ensures { IfOk result (λ docs. docs.items ≡ I.items rows.now) }
{
    let mut docs = Vec::new(alloc);
    let mut at = rows.walk();
    while let Some(doc) = rows.next(&mut at) {
        docs.push(doc)?;
    }
    Ok(docs)
}

// ---- documents with a value of a range

// The documents with a value from one end to the other, which are values of the column's type.
pub(crate) fn docs_between(
    alloc: Global,
    column: &DynamicColumn,
    lo: &QueryValue,
    hi: &QueryValue,
    num_docs: u32,
) -> Result<DocSet, AllocError>
    requires low { IsTrue (is_end_of (type_of column.now) (end_of lo.now)) }
    requires high { IsTrue (is_end_of (type_of column.now) (end_of hi.now)) }
    ensures { length (content_of column.now).rows ≡ num_docs → IfOk result (IsSetOf num_docs
        (λ d. list_any (is_between (cell_of (end_of lo.now)) (cell_of (end_of hi.now)))
        (row_of (content_of column.now) d))) }
{
    let mut docs = Vec::new(alloc);
    match put_between(column, lo, hi, 0..num_docs, &mut docs) {
        Ok(()) => DocSet::from_list(alloc, docs, num_docs),
        // Want of memory is the one refusal of a lookup.
        Err(_) => Err(AllocError),
    }
}

/// Puts the documents of a range that have a value from one end to the other, which are values of
/// the column's type; the list holds nothing else then. Refuses for want of memory alone.
pub fn put_between(
    column: &DynamicColumn,
    lo: &QueryValue,
    hi: &QueryValue,
    selected: Range<DocId>,
    docs: &mut Vec<DocId>,
) -> Result<(), ColumnarError>
    requires low { IsTrue (is_end_of (type_of column.now) (end_of lo.now)) }
    requires high { IsTrue (is_end_of (type_of column.now) (end_of hi.now)) }
    ensures { Replaces result docs.new.items (docs_between (content_of column.now)
        (cell_of (end_of lo.now)) (cell_of (end_of hi.now)) selected.start selected.end) }
{
    match column {
        DynamicColumn::Bool(flags) => {
            put_docs_between(flags, flag_of(lo), flag_of(hi), selected, docs)
        }
        DynamicColumn::I64(numbers) => {
            put_docs_between(numbers, i64_of(lo), i64_of(hi), selected, docs)
        }
        DynamicColumn::U64(numbers) => {
            put_docs_between(numbers, u64_of(lo), u64_of(hi), selected, docs)
        }
        DynamicColumn::IpAddr(addresses) => {
            put_docs_between(addresses, address_of(lo), address_of(hi), selected, docs)
        }
        DynamicColumn::DateTime(times) => {
            put_docs_between(times, time_of(lo), time_of(hi), selected, docs)
        }
        DynamicColumn::Bytes(terms) => {
            terms.get_docids_for_term_range(term_of(lo), term_of(hi), selected, docs)
        }
        DynamicColumn::Str(texts) => {
            let terms = texts.bytes_column();
            terms.get_docids_for_term_range(term_of(lo), term_of(hi), selected, docs)
        }
    }
}

/// Puts the documents of a range that have a value from one end to the other, both included,
/// ascending and each once; the list holds nothing else then. Refuses for want of memory alone.
pub fn put_docs_between<T, V>(
    column: &Column<T, V>,
    low: T,
    high: T,
    selected: Range<DocId>,
    docs: &mut Vec<DocId>,
) -> Result<(), ColumnarError>
where
    T: HasAssociatedColumnType,
    V: ColumnValues<T>,
    ensures { Replaces result docs.new.items (docs_between
        (content_seen [] T.cell column.now.shape (V.values column.now.values))
        (T.cell low) (T.cell high) selected.start selected.end) }
{
    lookups_are_those_of_cells::<T>();
    column.get_docids_for_value_range(low..=high, selected, docs)
}

// ---- ends as values of a type

fn i64_of(end: &QueryValue) -> i64
    requires { IsTrue (is_end_of types.i64 (end_of end.now)) }
    ensures { number result ≡ cell_of (end_of end.now) }
{
    match end {
        QueryValue::Num(value) => *value as i64,
        _ => unreachable!(),
    }
}

fn time_of(end: &QueryValue) -> DateTime
    requires { IsTrue (is_end_of types.datetime (end_of end.now)) }
    ensures { number result ≡ cell_of (end_of end.now) }
{
    DateTime::from_timestamp_nanos(i64_of(end))
}

fn u64_of(end: &QueryValue) -> u64
    requires { IsTrue (is_end_of types.u64 (end_of end.now)) }
    ensures { unsigned_cell result ≡ cell_of (end_of end.now) }
{
    match end {
        QueryValue::Num(value) => *value as u64,
        _ => unreachable!(),
    }
}

fn flag_of(end: &QueryValue) -> bool
    requires { IsTrue (is_end_of types.bool (end_of end.now)) }
    ensures { bool_cell result ≡ cell_of (end_of end.now) }
{
    match end {
        QueryValue::Num(value) => *value != 0,
        _ => unreachable!(),
    }
}

fn address_of(end: &QueryValue) -> Ipv6Addr
    requires { IsTrue (is_end_of types.ip (end_of end.now)) }
    ensures { unsigned_cell result ≡ cell_of (end_of end.now) }
{
    match end {
        QueryValue::Addr(bits) => Ipv6Addr::from_bits(*bits),
        _ => unreachable!(),
    }
}

fn term_of(end: &QueryValue) -> &[u8]
    requires { IsTrue (is_term (end_of end.now)) }
    ensures { text result.now ≡ cell_of (end_of end.now) }
{
    match end {
        QueryValue::Term(bytes) => bytes.as_slice(),
        _ => unreachable!(),
    }
}
