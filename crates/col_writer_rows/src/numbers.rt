//! Writes columns of numbers.
ghost use Rattle.std.specs.Prelude.{◌≡◌, ◌<◌, ◌^◌, true, false, map, sum, zip, length};
ghost use Rattle.col_common.specs.Ascending.{are_below};
ghost use Rattle.col_model.specs.ColumnType.{ColumnType, has_terms};
ghost use Rattle.col_model.specs.Dictionary.{cut};
ghost use Rattle.col_model.specs.U64List.{joined_lists};
ghost use Rattle.col_column.specs.Spelling.{IsIndex, index_shape, is_past_limit};
ghost use Rattle.col_column.specs.Columns.{IsCounted};
ghost use Rattle.col_column.specs.Written.{Stores64, SerializesRows};
ghost use Rattle.col_writer_rows.specs.RowOrders.{AreRowDocs};
ghost use Rattle.col_writer_rows.specs.Rows.{number_content, numbers_in_order, picked_rows};
ghost use Rattle.col_writer_rows.specs.Counted.{counts_of_rows, SerializesCounted, SerializesColumn};

use crate::row_index::RowIndex;
use crate::row_values::{place_values, sort_rows_if};
use crate::{DocList, RowOrder};
use col_column::serialize_column_mappable_to_u64;
use col_common::{ColumnarError, DocId, RowId, Sink};
use std::alloc::Global;

/// Writes a column of numbers, each beside its document.
pub fn serialize_number_column<K: Sink>(
    alloc: Global,
    docs: &DocList,
    numbers: &[u64],
    order: &RowOrder,
    sink: &mut K,
) -> Result<(), ColumnarError>
    requires below { are_below (length order.now) docs.now ≡ true }
    requires beside { length docs.now ≡ length numbers.now }
    requires few { length numbers.now < 2 ^ 32 }
    // What is added stands for the rows, in a column of any type that may store the numbers.
    ensures { (t : ColumnType) → has_terms t ≡ false → Stores64 t numbers.now →
        SerializesColumn (K.seen sink.old) (K.seen sink.new) result t (length order.now)
        (number_content t order.now docs.now numbers.now) }
{
    order.documents_have_rows();
    docs.never_fall();
    match order.placed() {
        Some(row_docs) => serialize_placed(alloc, docs, numbers, row_docs, sink),
        None => serialize_in_order(alloc, docs, numbers, order.num_rows(), sink),
    }
}

/// Writes numbers whose documents stand at their own rows.
pub(crate) fn serialize_in_order<K: Sink>(
    alloc: Global,
    docs: &DocList,
    numbers: &[u64],
    num_rows: RowId,
    sink: &mut K,
) -> Result<(), ColumnarError>
    requires below { are_below num_rows docs.now ≡ true }
    requires beside { length docs.now ≡ length numbers.now }
    requires few { length numbers.now < 2 ^ 32 }
    ensures { (t : ColumnType) → Stores64 t numbers.now →
        SerializesCounted (K.seen sink.old) (K.seen sink.new) result t
        (counts_of_rows num_rows docs.now) numbers.now }
{
    docs.never_fall();
    let index = RowIndex::of_docs(alloc, docs, num_rows)?;
    serialize_indexed(alloc, &index, numbers, sink)
}

// Writes numbers whose documents stand at other rows.
fn serialize_placed<K: Sink>(
    alloc: Global,
    docs: &DocList,
    numbers: &[u64],
    row_docs: &[DocId],
    sink: &mut K,
) -> Result<(), ColumnarError>
    requires below { are_below (length row_docs.now) docs.now ≡ true }
    requires beside { length docs.now ≡ length numbers.now }
    requires few { length numbers.now < 2 ^ 32 }
    requires placed { AreRowDocs (length row_docs.now) row_docs.now }
    requires rows { length row_docs.now < 2 ^ 32 }
    ensures { let rows = picked_rows row_docs.now (zip docs.now numbers.now) in
        (t : ColumnType) → Stores64 t (joined_lists rows) →
        SerializesCounted (K.seen sink.old) (K.seen sink.new) result t
        (map length rows) (joined_lists rows) }
{
    let (counts, placed) = place_values(alloc, docs, numbers, row_docs)?;
    serialize_counted(alloc, &counts, &placed, sink)
}

/// Writes numbers of rows with so many each, those of a row sorted where the flag is set.
pub(crate) fn serialize_sorted<K: Sink>(
    alloc: Global,
    sorts: bool,
    counts: &[u32],
    numbers: &mut [u64],
    sink: &mut K,
) -> Result<(), ColumnarError>
    requires rows { length counts.now < 2 ^ 32 }
    requires counted { sum counts.now ≡ length numbers.old }
    requires few { length numbers.old < 2 ^ 32 }
    ensures { let rows = map (numbers_in_order sorts) (cut counts.now numbers.old) in
        (t : ColumnType) → Stores64 t (joined_lists rows) →
        SerializesCounted (K.seen sink.old) (K.seen sink.new) result t
        counts.now (joined_lists rows) }
{
    sort_rows_if(sorts, counts, numbers);
    serialize_counted(alloc, counts, numbers, sink)
}

/// Writes numbers of rows with so many each.
pub(crate) fn serialize_counted<K: Sink>(
    alloc: Global,
    counts: &[u32],
    numbers: &[u64],
    sink: &mut K,
) -> Result<(), ColumnarError>
    requires rows { length counts.now < 2 ^ 32 }
    requires counted { sum counts.now ≡ length numbers.now }
    requires few { length numbers.now < 2 ^ 32 }
    ensures { (t : ColumnType) → Stores64 t numbers.now →
        SerializesCounted (K.seen sink.old) (K.seen sink.new) result t counts.now numbers.now }
{
    let index = RowIndex::of_counts(alloc, counts)?;
    serialize_indexed(alloc, &index, numbers, sink)
}

// Writes numbers behind an index.
fn serialize_indexed<K: Sink>(
    alloc: Global,
    index: &RowIndex,
    numbers: &[u64],
    sink: &mut K,
) -> Result<(), ColumnarError>
    requires few { length numbers.now < 2 ^ 32 }
    requires index { IsIndex index.now }
    requires limit { is_past_limit index.now ≡ false }
    requires counted { IsCounted (index_shape index.now) (length numbers.now) }
    ensures { (t : ColumnType) → Stores64 t numbers.now →
        SerializesRows (K.seen sink.old) (K.seen sink.new) result t
        (index_shape index.now) numbers.now }
{
    serialize_column_mappable_to_u64::<u64, _, _>(alloc, index.as_serializable(), &numbers, sink)
}
