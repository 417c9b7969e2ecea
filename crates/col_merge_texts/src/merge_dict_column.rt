//! Writes merged columns of terms.
ghost use Rattle.std.specs.Prelude.{◌≡◌, ◌<◌, ◌^◌, true, false, length, sum, IfOk};
ghost use Rattle.std.specs.List.{AllByRecursion};
ghost use Rattle.col_model.specs.ColumnType.{ColumnType, has_terms};
ghost use Rattle.col_model.specs.Positions.{picked_counts};
ghost use Rattle.col_order.specs.Orders.{picks_of};
ghost use Rattle.col_order.specs.RowOrders.{order_of};
ghost use Rattle.col_indexer.specs.Merged.{IsMerged};
ghost use Rattle.col_indexer.specs.Spelling.{IsIndex, index_shape, is_past_limit};
ghost use Rattle.col_column.specs.Columns.{IsCounted};
ghost use Rattle.col_terms.specs.Building.{ordinals};
ghost use Rattle.col_indexer.specs.Written.{index_of};
ghost use Rattle.col_merge_values.specs.Merges.{merge_of, values_of};
ghost use Rattle.col_merge_values.specs.TermColumns.{remapped_columns};
ghost use Rattle.col_merge_texts.specs.Merged.{FitTexts, MergesTexts, shapes_of, has_long_terms, merged_content};
ghost use Rattle.col_merge_texts.specs.Taking.{AreTold, IsTaken, IsNowhere, AreNoted};
ghost use Rattle.col_merge_texts.specs.Noting.{ords_by};
ghost use Rattle.col_merge_texts.specs.Ids.{HasIds};
ghost use Rattle.col_merge_texts.specs.Writing.{SerializesOrds};

use crate::noted_terms::{NotedTerms, picked_ords};
use crate::take_terms::take_terms;
use col_column::serialize_column_mappable_to_u64;
use col_common::{ColumnarError, Sink, serialize_bytes};
use col_indexer::SerializableColumnIndex;
use col_merge_values::{InMemory, RemappedTermOrdinalsValues, merged_values_are_rows};
use col_order::{MergeRowOrder, orders_are_picks};
use col_terms::{TermIdMapping, dictionaries_are_read_back, terms_are_those_given};
use col_text::BytesColumn;
use std::alloc::{AllocError, Global};

/// Writes the column of the rows that an order picks from columns of terms, behind the index of
/// these rows. It answers TooLarge exactly where 32 bits don't count the bytes of its terms.
pub fn merge_bytes_or_str_column<K: Sink>(
    alloc: Global,
    column_index: SerializableColumnIndex<'_>,
    bytes_columns: &[BytesColumn],
    merge_row_order: &MergeRowOrder,
    sink: &mut K,
) -> Result<(), ColumnarError>
    requires segments { FitTexts (order_of merge_row_order.now) bytes_columns.now }
    requires few { sum (picked_counts (shapes_of bytes_columns.now)
        (picks_of (order_of merge_row_order.now))) < 2 ^ 32 }
    requires index { IsIndex (index_of column_index) }
    requires merged { IsMerged (order_of merge_row_order.now) (shapes_of bytes_columns.now)
        (index_of column_index) }
    requires limit { is_past_limit (index_of column_index) ≡ false }
    ensures { let order = order_of merge_row_order.now in
        (t : ColumnType) → has_terms t ≡ true →
        MergesTexts (has_long_terms bytes_columns.now order) (K.seen sink.old) (K.seen sink.new)
        result t (length (picks_of order)) (merged_content bytes_columns.now order) }
{
    ordinals_are_told(bytes_columns);
    let mut ids = Vec::new(alloc);
    let noted = take_terms(alloc, bytes_columns, merge_row_order, &mut ids)?;
    write_merged(
        alloc,
        column_index,
        bytes_columns,
        &noted,
        &ids,
        merge_row_order,
        sink,
    )
}

/// That each column's ordinals are those of its terms, and that its index counts them.
pub fn ordinals_are_told(bytes_columns: &[BytesColumn])
    ensures { AllByRecursion AreTold bytes_columns.now }
{
    for column in bytes_columns {
        column.ordinals_are_told();
    }
}

// Writes the merged column of terms that were taken, with the ids of a shuffle's values.
fn write_merged<K: Sink>(
    alloc: Global,
    column_index: SerializableColumnIndex<'_>,
    bytes_columns: &[BytesColumn],
    noted: &NotedTerms,
    ids: &[u32],
    merge_row_order: &MergeRowOrder,
    sink: &mut K,
) -> Result<(), ColumnarError>
    requires segments { FitTexts (order_of merge_row_order.now) bytes_columns.now }
    requires told { AllByRecursion AreTold bytes_columns.now }
    requires noted { AreNoted bytes_columns.now
        (IsTaken bytes_columns.now (order_of merge_row_order.now)) IsNowhere noted.now }
    requires ids { HasIds bytes_columns.now (order_of merge_row_order.now) noted.now ids.now }
    requires few { sum (picked_counts (shapes_of bytes_columns.now)
        (picks_of (order_of merge_row_order.now))) < 2 ^ 32 }
    requires index { IsIndex (index_of column_index) }
    requires merged { IsMerged (order_of merge_row_order.now) (shapes_of bytes_columns.now)
        (index_of column_index) }
    requires limit { is_past_limit (index_of column_index) ≡ false }
    ensures { let order = order_of merge_row_order.now in
        (t : ColumnType) → has_terms t ≡ true →
        MergesTexts (has_long_terms bytes_columns.now order) (K.seen sink.old) (K.seen sink.new)
        result t (length (picks_of order)) (merged_content bytes_columns.now order) }
{
    dictionaries_are_read_back();
    terms_are_those_given();
    orders_are_picks(merge_row_order);
    merged_values_are_rows::<u64>();
    noted.terms_differ();
    let mapping = noted.serialize(sink)?;
    let ords = merged_ords(alloc, bytes_columns, noted, &mapping, ids, merge_row_order)?;
    write_ords(alloc, column_index, &ords, noted.dictionary_len(), sink)
}

// The ordinals of the values of picked rows, as a mapping of ids has them.
fn merged_ords(
    alloc: Global,
    bytes_columns: &[BytesColumn],
    noted: &NotedTerms,
    mapping: &TermIdMapping,
    ids: &[u32],
    merge_row_order: &MergeRowOrder,
) -> Result<Vec<u64>, AllocError>
    requires segments { FitTexts (order_of merge_row_order.now) bytes_columns.now }
    requires told { AllByRecursion AreTold bytes_columns.now }
    requires noted { AreNoted bytes_columns.now
        (IsTaken bytes_columns.now (order_of merge_row_order.now)) IsNowhere noted.now }
    requires mapping { mapping.now ≡ ordinals noted.now.terms }
    requires ids { HasIds bytes_columns.now (order_of merge_row_order.now) noted.now ids.now }
    ensures { IfOk result (λ v. v.items ≡ values_of (merge_of
        (remapped_columns bytes_columns.now (ords_by (ordinals noted.now.terms) noted.now.ids))
        (order_of merge_row_order.now))) }
{
    terms_are_those_given();
    orders_are_picks(merge_row_order);
    match merge_row_order {
        MergeRowOrder::Stack(_) => {
            let ords = noted.ords_by_column(alloc, mapping)?;
            RemappedTermOrdinalsValues::new(bytes_columns, &ords, merge_row_order).in_memory(alloc)
        }
        MergeRowOrder::Shuffled(_) => picked_ords(alloc, mapping, ids),
    }
}

// Writes ordinals, and how many bytes the dictionary in front takes.
fn write_ords<K: Sink>(
    alloc: Global,
    column_index: SerializableColumnIndex<'_>,
    ords: &[u64],
    dictionary_len: u32,
    sink: &mut K,
) -> Result<(), ColumnarError>
    requires index { IsIndex (index_of column_index) }
    requires limit { is_past_limit (index_of column_index) ≡ false }
    requires counted { IsCounted (index_shape (index_of column_index)) (length ords.now) }
    requires few { length ords.now < 2 ^ 32 }
    ensures { SerializesOrds (K.seen sink.old) (K.seen sink.new) result
        (index_shape (index_of column_index.entry)) ords.now dictionary_len }
{
    serialize_column_mappable_to_u64(alloc, column_index, &ords, sink)?;
    serialize_bytes(sink, &dictionary_len.to_le_bytes())
}
