//! Writes columns of texts.
ghost use Rattle.std.specs.Prelude.{◌≡◌, ◌<◌, ◌^◌, true, false, map, zip, length, bytes_eq, IfOk};
ghost use Rattle.std.specs.List.{range_with_len, IsDistinct};
ghost use Rattle.col_common.specs.Ascending.{are_below};
ghost use Rattle.col_model.specs.ColumnType.{ColumnType, has_terms};
ghost use Rattle.col_model.specs.Limits.{dictionary_length};
ghost use Rattle.col_model.specs.U64List.{joined_lists};
ghost use Rattle.col_column.specs.Written.{Stores64};
ghost use Rattle.col_terms.specs.Building.{ordered, is_too_long};
ghost use Rattle.col_writer_rows.specs.Counted.{SerializesCounted, SerializesColumn};
ghost use Rattle.col_writer_rows.specs.RowOrders.{AreRowDocs};
ghost use Rattle.col_writer_rows.specs.Rows.{ord_rows, StandBeside};
ghost use Rattle.col_writer_rows.specs.Terms.{AreTermIds, SerializesBehindTerms, text_content, ord_by};

use crate::doc_rows::sort_docs_if;
use crate::numbers::{serialize_in_order, serialize_sorted};
use crate::row_values::place_values;
use crate::{DocList, RowOrder};
use col_common::{ColumnarError, DocId, RowId, Sink, serialize_bytes};
use col_terms::{
    DictionaryBuilder, TermIdMapping, UnorderedId, dictionaries_are_read_back,
    ordinals_have_the_order_of_their_terms, terms_are_those_given,
};
use std::alloc::{AllocError, Global};

/// Writes a column of texts, each beside its document, by the ids of their terms. Where the flag is
/// set, the texts of each row are sorted.
pub fn serialize_text_column<K: Sink>(
    alloc: Global,
    docs: &DocList,
    ids: &[u32],
    terms: &DictionaryBuilder,
    sort_values_within_row: bool,
    order: &RowOrder,
    sink: &mut K,
) -> Result<(), ColumnarError>
    requires below { are_below (length order.now) docs.now ≡ true }
    requires beside { length docs.now ≡ length ids.now }
    requires few { length ids.now < 2 ^ 32 }
    requires terms { AreTermIds terms.now ids.now }
    ensures { (t : ColumnType) → has_terms t ≡ true →
        SerializesColumn (K.seen sink.old) (K.seen sink.new) result t (length order.now)
        (text_content sort_values_within_row order.now docs.now terms.now ids.now) }
{
    dictionaries_are_read_back();
    ordinals_have_the_order_of_their_terms();
    terms_are_those_given();
    let dictionary_len = dictionary_len(terms);
    let mapping = terms.serialize(sink)?;
    let ords = ords_of(alloc, &mapping, ids)?;
    serialize_behind(
        alloc,
        docs,
        ords,
        sort_values_within_row,
        order,
        dictionary_len,
        sink,
    )
}

// Writes ordinals, each beside its document, and how many bytes the dictionary in front takes.
fn serialize_behind<K: Sink>(
    alloc: Global,
    docs: &DocList,
    ords: Vec<u64>,
    sorts: bool,
    order: &RowOrder,
    dictionary_len: u32,
    sink: &mut K,
) -> Result<(), ColumnarError>
    requires { StandBeside (length order.now) docs.now ords.items }
    ensures { let rows = ord_rows sorts order.now (zip docs.now ords.items) in
        (t : ColumnType) → Stores64 t (joined_lists rows) →
        SerializesBehindTerms (K.seen sink.old) (K.seen sink.new) result t
        (map length rows) (joined_lists rows) dictionary_len }
{
    serialize_ords(alloc, docs, ords, sorts, order, sink)?;
    serialize_bytes(sink, &dictionary_len.to_le_bytes())
}

// The ordinals of terms, by their ids.
fn ords_of(alloc: Global, mapping: &TermIdMapping, ids: &[u32]) -> Result<Vec<u64>, AllocError>
    requires { are_below (length mapping.now) ids.now ≡ true }
    ensures { IfOk result (λ v. v.items ≡ map (ord_by mapping.now) ids.now) }
{
    let mut ords = Vec::new(alloc);
    ords.reserve(ids.len())?;
    for id in ids {
        ords.push(u64::from(mapping.to_ord(UnorderedId(*id)).0))?;
    }
    Ok(ords)
}

// How many bytes the dictionary takes.
fn dictionary_len(terms: &DictionaryBuilder) -> u32
    requires differ { IsDistinct bytes_eq terms.now }
    requires fits { is_too_long terms.now ≡ false }
    ensures { result ≡ dictionary_length (ordered terms.now) }
{
    (4 + 4 * terms.num_terms() + terms.terms_num_bytes()) as u32
}

// Writes ordinals, each beside its document.
fn serialize_ords<K: Sink>(
    alloc: Global,
    docs: &DocList,
    ords: Vec<u64>,
    sorts: bool,
    order: &RowOrder,
    sink: &mut K,
) -> Result<(), ColumnarError>
    requires { StandBeside (length order.now) docs.now ords.items }
    ensures { let rows = ord_rows sorts order.now (zip docs.now ords.items) in
        (t : ColumnType) → Stores64 t (joined_lists rows) →
        SerializesCounted (K.seen sink.old) (K.seen sink.new) result t
        (map length rows) (joined_lists rows) }
{
    order.documents_have_rows();
    docs.never_fall();
    match order.placed() {
        Some(row_docs) => serialize_placed_ords(alloc, docs, &ords, row_docs, sorts, sink),
        None => serialize_own_ords(alloc, docs, ords, order.num_rows(), sorts, sink),
    }
}

// Writes ordinals whose documents stand at other rows.
fn serialize_placed_ords<K: Sink>(
    alloc: Global,
    docs: &DocList,
    ords: &[u64],
    row_docs: &[DocId],
    sorts: bool,
    sink: &mut K,
) -> Result<(), ColumnarError>
    requires below { are_below (length row_docs.now) docs.now ≡ true }
    requires beside { length docs.now ≡ length ords.now }
    requires few { length ords.now < 2 ^ 32 }
    requires placed { AreRowDocs (length row_docs.now) row_docs.now }
    requires rows { length row_docs.now < 2 ^ 32 }
    ensures { let rows = ord_rows sorts row_docs.now (zip docs.now ords.now) in
        (t : ColumnType) → Stores64 t (joined_lists rows) →
        SerializesCounted (K.seen sink.old) (K.seen sink.new) result t
        (map length rows) (joined_lists rows) }
{
    let (counts, mut placed) = place_values(alloc, docs, ords, row_docs)?;
    serialize_sorted(alloc, sorts, &counts, &mut placed, sink)
}

// Writes ordinals whose documents stand at their own rows.
fn serialize_own_ords<K: Sink>(
    alloc: Global,
    docs: &DocList,
    mut ords: Vec<u64>,
    num_rows: RowId,
    sorts: bool,
    sink: &mut K,
) -> Result<(), ColumnarError>
    requires below { are_below num_rows docs.now ≡ true }
    requires beside { length docs.now ≡ length ords.items }
    requires few { length ords.items < 2 ^ 32 }
    ensures { let rows = ord_rows sorts (range_with_len 0 num_rows) (zip docs.now ords.items) in
        (t : ColumnType) → Stores64 t (joined_lists rows) →
        SerializesCounted (K.seen sink.old) (K.seen sink.new) result t
        (map length rows) (joined_lists rows) }
{
    docs.never_fall();
    sort_docs_if(alloc, sorts, docs, num_rows, &mut ords)?;
    serialize_in_order(alloc, docs, &ords, num_rows, sink)
}
