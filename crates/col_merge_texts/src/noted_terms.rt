//! Terms of columns, each noted once.
ghost use Rattle.std.specs.Prelude.{◌≡◌, ◌<◌, true, is_some, map, length, None, IfOk, IfErr, OnOk, Some, slice_get, slice_index, unwrap_or};
ghost use Rattle.std.specs.List.{AllByRecursion};
ghost use Rattle.col_common.specs.Ascending.{AreBelow};
ghost use Rattle.col_merge_texts.specs.Items.{item_at, lists_of, terms_of};
ghost use Rattle.col_merge_texts.specs.Noting.{ids_of, noted_by, no_ids_of, ord_by, ords_by, Sets, Notes, IsNoteRefusal, IsIdBelow};

use col_common::{ColumnarError, Sink};
use col_terms::{DictionaryBuilder, TermIdMapping, UnorderedId};
use col_text::BytesColumn;
use std::alloc::{AllocError, Global};
use std::marker::Model;

/// Terms by their ids, and for each term of each column its id, if it was noted.
#[derive(Drop)]
pub(crate) struct NotedTerms {
    terms: DictionaryBuilder,
    ids: Vec<Vec<Option<u32>>>,
    // the bytes of a term
    term: Vec<u8>,
}

impl Model for NotedTerms {
    ghost use Rattle.col_merge_texts.specs.Noting.{Noted, noted_by};

    ghost Value = { Noted };

    ghost view = { λ n. noted_by n.terms n.ids.items };
}

impl NotedTerms {
    ghost use Rattle.std.specs.Prelude.{[], bytes_eq, false};
    ghost use Rattle.std.specs.List.{IsDistinct};
    ghost use Rattle.col_common.specs.Serializing.{done};
    ghost use Rattle.col_common.specs.declared.error.ColumnarError.TheVariants as refusals;
    ghost use Rattle.col_terms.specs.Building.{ordered, is_too_long, ordinals, SerializesWithin};
    ghost use Rattle.col_terms.specs.TermTable.{dictionary_bytes};
    ghost use Rattle.col_model.specs.Limits.{dictionary_length};
    ghost use Rattle.col_merge_texts.specs.Noting.{HasIdIf, nothing_noted};

    /// No term of these columns.
    pub(crate) fn new(
        alloc: Global,
        bytes_columns: &[BytesColumn],
    ) -> Result<NotedTerms, AllocError>
        ensures { IfOk result (λ noted. noted ≡ nothing_noted (terms_of bytes_columns.now)) }
    {
        let terms = DictionaryBuilder::new(alloc);
        let ids = no_ids(alloc, bytes_columns)?;
        Ok(NotedTerms {
            terms,
            ids,
            term: Vec::new(alloc),
        })
    }

    /// Notes the term of an ordinal of a segment's column, and tells its id.
    pub(crate) fn note(
        &mut self,
        column: &BytesColumn,
        segment: usize,
        ord: u64,
    ) -> Result<u32, ColumnarError>
        requires term { ord < length column.now.terms }
        requires place { is_some (item_at self.old.ids (segment, ord)) ≡ true }
        requires held { HasIdIf self.old (segment, ord)
            (unwrap_or (slice_get column.now.terms ord) []) }
        ensures ok { OnOk result (Notes (segment, ord)
            (unwrap_or (slice_get column.now.terms ord) []) self.old self.new) }
        ensures id { IfOk result (λ id. item_at self.new.ids (segment, ord) ≡ Some (Some id)) }
        ensures err { IfErr result
            (IsNoteRefusal self.old.terms (unwrap_or (slice_get column.now.terms ord) [])) }
    {
        if let Some(id) = id_at(&self.ids, segment, ord) {
            return Ok(id);
        }
        column.ord_to_bytes(ord, &mut self.term)?;
        give_id(&mut self.terms, &mut self.ids, &self.term, segment, ord)
    }

    /// That no term is there twice.
    pub(crate) fn terms_differ(&self)
        ensures { IsDistinct bytes_eq self.now.terms }
    {
        self.terms.terms_differ();
    }

    /// How many bytes the dictionary of the terms takes.
    pub(crate) fn dictionary_len(&self) -> u32
        requires { is_too_long self.now.terms ≡ false }
        ensures { result ≡ dictionary_length (ordered self.now.terms) }
    {
        self.terms.terms_differ();
        (4 + 4 * self.terms.num_terms() + self.terms.terms_num_bytes()) as u32
    }

    /// Writes the dictionary of the terms, and gives each id the ordinal of its term.
    pub(crate) fn serialize<K: Sink>(&self, sink: &mut K) -> Result<TermIdMapping, ColumnarError>
        ensures bytes { SerializesWithin (is_too_long self.now.terms) (K.seen sink.old)
            (K.seen sink.new) (done result) (dictionary_bytes (ordered self.now.terms)) }
        ensures mapping { IfOk result (λ m. m ≡ ordinals self.now.terms) }
    {
        self.terms.serialize(sink)
    }

    /// For each term of each column the ordinal of its id.
    pub(crate) fn ords_by_column(
        &self,
        alloc: Global,
        mapping: &TermIdMapping,
    ) -> Result<Vec<Vec<u64>>, AllocError>
        requires { AllByRecursion (AllByRecursion (IsIdBelow (length mapping.now))) self.now.ids }
        ensures { IfOk result (λ v. lists_of v.items ≡ ords_by mapping.now self.now.ids) }
    {
        all_ords(alloc, mapping, &self.ids)
    }
}

// A list for each column, without an id for any of its terms.
fn no_ids(alloc: Global, bytes_columns: &[BytesColumn]) -> Result<Vec<Vec<Option<u32>>>, AllocError>
    ensures { IfOk result (λ v. ids_of v.items ≡ no_ids_of (terms_of bytes_columns.now)) }
{
    let mut ids = Vec::with_capacity(alloc, bytes_columns.len())?;
    for column in bytes_columns {
        ids.push(vec![in alloc; None; column.num_terms()]?)?;
    }
    Ok(ids)
}

// The id of a place, if it has one.
fn id_at(ids: &[Vec<Option<u32>>], segment: usize, ord: u64) -> Option<u32>
    requires { is_some (item_at (ids_of ids.now) (segment, ord)) ≡ true }
    ensures { item_at (ids_of ids.now) (segment, ord) ≡ Some result }
{
    let column_ids = &ids[segment];
    column_ids[ord as usize]
}

// Gives a place without an id that of its term, which gets the next one if it is new, and tells
// it.
fn give_id(
    terms: &mut DictionaryBuilder,
    ids: &mut [Vec<Option<u32>>],
    term: &[u8],
    segment: usize,
    ord: u64,
) -> Result<u32, ColumnarError>
    requires { item_at (ids_of ids.old) (segment, ord) ≡ Some None }
    ensures ok { OnOk result (Notes (segment, ord) term.now
        (noted_by terms.old ids.old) (noted_by terms.new ids.new)) }
    ensures id { IfOk result (λ id. item_at (ids_of ids.new) (segment, ord) ≡ Some (Some id)) }
    ensures err { IfErr result (IsNoteRefusal terms.old term.now) }
{
    terms.terms_differ();
    let id = terms.get_or_allocate_id(term)?;
    set_id(ids, segment, ord, id.0);
    Ok(id.0)
}

// Gives a place an id.
fn set_id(ids: &mut [Vec<Option<u32>>], segment: usize, ord: u64, id: u32)
    requires { is_some (item_at (ids_of ids.old) (segment, ord)) ≡ true }
    ensures { Sets (segment, ord) (Some id) (ids_of ids.old) (ids_of ids.new) }
{
    let column_ids = &mut ids[segment];
    column_ids[ord as usize] = Some(id);
}

// The ordinals of the ids of all columns.
fn all_ords(
    alloc: Global,
    mapping: &TermIdMapping,
    ids: &[Vec<Option<u32>>],
) -> Result<Vec<Vec<u64>>, AllocError>
    requires { AllByRecursion (AllByRecursion (IsIdBelow (length mapping.now))) (ids_of ids.now) }
    ensures { IfOk result (λ v. lists_of v.items ≡ ords_by mapping.now (ids_of ids.now)) }
{
    let mut ords = Vec::with_capacity(alloc, ids.len())?;
    for column_ids in ids {
        ords.push(ords_of(alloc, mapping, column_ids)?)?;
    }
    Ok(ords)
}

// The ordinals of the ids of a column.
fn ords_of(
    alloc: Global,
    mapping: &TermIdMapping,
    ids: &[Option<u32>],
) -> Result<Vec<u64>, AllocError>
    requires { AllByRecursion (IsIdBelow (length mapping.now)) ids.now }
    ensures { IfOk result (λ v. v.items ≡ map (ord_by mapping.now) ids.now) }
{
    let mut ords = Vec::with_capacity(alloc, ids.len())?;
    for id in ids {
        ords.push(ord_of(mapping, *id))?;
    }
    Ok(ords)
}

// The ordinal of an id; 0 where there is none.
fn ord_of(mapping: &TermIdMapping, id: Option<u32>) -> u64
    requires { IsIdBelow (length mapping.now) id }
    ensures { result ≡ ord_by mapping.now id }
{
    match id {
        Some(id) => u64::from(mapping.to_ord(UnorderedId(id)).0),
        None => 0,
    }
}

/// The ordinals of ids.
pub(crate) fn picked_ords(
    alloc: Global,
    mapping: &TermIdMapping,
    ids: &[u32],
) -> Result<Vec<u64>, AllocError>
    requires { AreBelow (length mapping.now) ids.now }
    ensures { IfOk result (λ v. v.items ≡ map (slice_index mapping.now) ids.now) }
{
    let mut ords = Vec::with_capacity(alloc, ids.len())?;
    for id in ids {
        ords.push(ord_of(mapping, Some(*id)))?;
    }
    Ok(ords)
}
