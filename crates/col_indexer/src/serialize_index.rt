//! Writes indexes of any cardinality.
ghost use Rattle.std.specs.Prelude.{◌≡◌, ◌-◌, ◌^◌, nat_le, false, length, Some, IfOk};
ghost use Rattle.col_common.specs.Serializing.{Serializes, done};
ghost use Rattle.col_model.specs.Index.{row_offsets, shape};
ghost use Rattle.col_model.specs.Version.{current_version};
ghost use Rattle.col_indexer.specs.Spelling.{offsets_by_rows, row_offsets_bytes, body_bytes};
ghost use Rattle.col_indexer.specs.Spelling as spelled;
ghost use Rattle.col_indexer.specs.Spelling.{index_bytes, index_shape};
ghost use Rattle.col_indexer.specs.Spelling.{IsIndex, is_past_limit};
ghost use Rattle.col_indexer.specs.Written.{row_offsets_of, index_of};

use crate::indexes_are_read_back;
use crate::serialize::{SerializableColumnIndex, SerializableMultivalueIndex, serialize_starts};
use crate::serialize_rows::serialize_row_set;
use col_common::{ColumnarError, Iterable, Sink, serialize_bytes};
use std::alloc::Global;

/// Writes rows with a value, their start offsets, and how many bytes the rows take.
pub fn serialize_multivalued_index<K: Sink>(
    alloc: Global,
    multivalued_index: &SerializableMultivalueIndex<'_>,
    sink: &mut K,
) -> Result<(), ColumnarError>
    requires index { IsIndex (spelled.multivalued_index (row_offsets_of multivalued_index.now)) }
    requires limit { is_past_limit
        (spelled.multivalued_index (row_offsets_of multivalued_index.now)) ≡ false }
    ensures ok { Serializes (K.seen sink.old) (K.seen sink.new) result
        (row_offsets_bytes (row_offsets_of multivalued_index.now)) }
    // What was written stands for the rows and offsets.
    ensures again { row_offsets current_version
        (row_offsets_bytes (row_offsets_of multivalued_index.now))
        ≡ Some (row_offsets_of multivalued_index.now) }
{
    indexes_are_read_back();
    serialize_row_offsets(alloc, multivalued_index, sink)?;
    Ok(())
}

// Writes rows with a value and their start offsets, and tells how many bytes they take.
fn serialize_row_offsets<K: Sink>(
    alloc: Global,
    index: &SerializableMultivalueIndex<'_>,
    sink: &mut K,
) -> Result<u64, ColumnarError>
    requires index { IsIndex (spelled.multivalued_index (row_offsets_of index.now)) }
    requires limit { is_past_limit (spelled.multivalued_index (row_offsets_of index.now)) ≡ false }
    ensures ok { Serializes (K.seen sink.old) (K.seen sink.new) (done result)
        (row_offsets_bytes (row_offsets_of index.now)) }
    ensures length { IfOk result (λ n. n ≡ length (row_offsets_bytes (row_offsets_of index.now))) }
{
    let rows = &index.doc_ids_with_values;
    let rows_len = serialize_row_set(alloc, &rows.non_null_row_ids, rows.num_rows, sink)?;
    let starts_len = serialize_starts(alloc, &index.start_offsets, sink)?;
    let end = rows_len.to_le_bytes();
    serialize_bytes(sink, &end)?;
    Ok(rows_len + starts_len + end.len() as u64)
}

/// Writes an index, and tells how many bytes it takes.
pub fn serialize_column_index<K: Sink>(
    alloc: Global,
    column_index: SerializableColumnIndex<'_>,
    sink: &mut K,
) -> Result<u64, ColumnarError>
    requires index { IsIndex (index_of column_index) }
    requires limit { is_past_limit (index_of column_index) ≡ false }
    ensures ok { Serializes (K.seen sink.old) (K.seen sink.new) (done result)
        (index_bytes (index_of column_index.entry)) }
    ensures length { IfOk result (λ n. n ≡ length (index_bytes (index_of column_index.entry))) }
    // What was written stands for the index.
    ensures again { shape (index_bytes (index_of column_index.entry)) current_version
        ≡ Some (index_shape (index_of column_index.entry)) }
{
    indexes_are_read_back();
    serialize_bytes(sink, &[column_index.get_cardinality().to_code()])?;
    let len = serialize_body(alloc, &column_index, sink)?;
    Ok(1 + len)
}

// Writes what stands behind the cardinality's code, and tells how many bytes it adds.
fn serialize_body<K: Sink>(
    alloc: Global,
    column_index: &SerializableColumnIndex<'_>,
    sink: &mut K,
) -> Result<u64, ColumnarError>
    requires index { IsIndex (index_of column_index.now) }
    requires limit { is_past_limit (index_of column_index.now) ≡ false }
    ensures ok { Serializes (K.seen sink.old) (K.seen sink.new) (done result)
        (body_bytes (index_of column_index.now)) }
    ensures length { IfOk result (λ n. n ≡ length (body_bytes (index_of column_index.now))) }
{
    match column_index {
        SerializableColumnIndex::Full => Ok(0),
        SerializableColumnIndex::Optional(rows) => {
            serialize_row_set(alloc, &rows.non_null_row_ids, rows.num_rows, sink)
        }
        SerializableColumnIndex::Multivalued(index) => serialize_row_offsets(alloc, index, sink),
    }
}
