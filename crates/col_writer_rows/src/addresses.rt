//! Writes columns of addresses.
ghost use Rattle.std.specs.Prelude.{◌≡◌, ◌<◌, ◌^◌, true, false, map, zip, length};
ghost use Rattle.col_model.specs.AddressList.{least_codes};
ghost use Rattle.col_common.specs.Ascending.{are_below};
ghost use Rattle.col_model.specs.ColumnType as types;
ghost use Rattle.col_model.specs.U64List.{joined_lists};
ghost use Rattle.col_column.specs.Spelling.{IsIndex, index_shape, is_past_limit};
ghost use Rattle.col_column.specs.Columns.{IsCounted};
ghost use Rattle.col_column.specs.Written.{SerializesRows};
ghost use Rattle.col_writer_rows.specs.Counted.{counts_of_rows, SerializesCounted, SerializesColumn};
ghost use Rattle.col_writer_rows.specs.RowOrders.{AreRowDocs};
ghost use Rattle.col_writer_rows.specs.Rows.{number_content, picked_rows};

use crate::row_index::RowIndex;
use crate::row_values::place_values;
use crate::{DocList, RowOrder};
use col_column::serialize_column_mappable_to_u128;
use col_common::{ColumnarError, DocId, RowId, Sink};
use std::alloc::Global;

/// Writes a column of addresses, each beside its document.
pub fn serialize_address_column<K: Sink>(
    alloc: Global,
    docs: &DocList,
    addresses: &[u128],
    order: &RowOrder,
    sink: &mut K,
) -> Result<(), ColumnarError>
    requires below { are_below (length order.now) docs.now ≡ true }
    requires beside { length docs.now ≡ length addresses.now }
    requires few { length addresses.now < 2 ^ 32 }
    requires codes { let rows = picked_rows order.now (zip docs.now addresses.now) in
        least_codes (joined_lists rows) < 2 ^ 32 }
    ensures { SerializesColumn (K.seen sink.old) (K.seen sink.new) result types.ip
        (length order.now)
        (number_content types.ip order.now docs.now addresses.now) }
{
    order.documents_have_rows();
    docs.never_fall();
    match order.placed() {
        Some(row_docs) => serialize_placed(alloc, docs, addresses, row_docs, sink),
        None => serialize_own(alloc, docs, addresses, order.num_rows(), sink),
    }
}

// Writes addresses whose documents stand at their own rows.
fn serialize_own<K: Sink>(
    alloc: Global,
    docs: &DocList,
    addresses: &[u128],
    num_rows: RowId,
    sink: &mut K,
) -> Result<(), ColumnarError>
    requires below { are_below num_rows docs.now ≡ true }
    requires beside { length docs.now ≡ length addresses.now }
    requires few { length addresses.now < 2 ^ 32 }
    requires codes { least_codes addresses.now < 2 ^ 32 }
    ensures { SerializesCounted (K.seen sink.old) (K.seen sink.new) result types.ip
        (counts_of_rows num_rows docs.now) addresses.now }
{
    docs.never_fall();
    let index = RowIndex::of_docs(alloc, docs, num_rows)?;
    serialize_indexed(alloc, &index, addresses, sink)
}

// Writes addresses whose documents stand at other rows.
fn serialize_placed<K: Sink>(
    alloc: Global,
    docs: &DocList,
    addresses: &[u128],
    row_docs: &[DocId],
    sink: &mut K,
) -> Result<(), ColumnarError>
    requires below { are_below (length row_docs.now) docs.now ≡ true }
    requires beside { length docs.now ≡ length addresses.now }
    requires few { length addresses.now < 2 ^ 32 }
    requires placed { AreRowDocs (length row_docs.now) row_docs.now }
    requires rows { length row_docs.now < 2 ^ 32 }
    requires codes { let rows = picked_rows row_docs.now (zip docs.now addresses.now) in
        least_codes (joined_lists rows) < 2 ^ 32 }
    ensures { let rows = picked_rows row_docs.now (zip docs.now addresses.now) in
        SerializesCounted (K.seen sink.old) (K.seen sink.new) result types.ip
        (map length rows) (joined_lists rows) }
{
    let (counts, placed) = place_values(alloc, docs, addresses, row_docs)?;
    let index = RowIndex::of_counts(alloc, &counts)?;
    serialize_indexed(alloc, &index, &placed, sink)
}

// Writes addresses behind an index.
fn serialize_indexed<K: Sink>(
    alloc: Global,
    index: &RowIndex,
    addresses: &[u128],
    sink: &mut K,
) -> Result<(), ColumnarError>
    requires few { length addresses.now < 2 ^ 32 }
    requires codes { least_codes addresses.now < 2 ^ 32 }
    requires index { IsIndex index.now }
    requires limit { is_past_limit index.now ≡ false }
    requires counted { IsCounted (index_shape index.now) (length addresses.now) }
    ensures { SerializesRows (K.seen sink.old) (K.seen sink.new) result types.ip
        (index_shape index.now) addresses.now }
{
    serialize_column_mappable_to_u128::<u128, _, _>(
        alloc,
        index.as_serializable(),
        &addresses,
        sink,
    )
}
