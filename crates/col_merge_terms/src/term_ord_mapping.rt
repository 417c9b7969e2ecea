//! The places of terms of columns among the terms of all columns.
ghost use Rattle.std.specs.Prelude.{◌≡◌, ◌<◌, ◌^◌, ◌∷◌, [], true, map, length, nat_lt, is_some, IfOk, IfErr, OnOk};
ghost use Rattle.std.specs.List.{AllByRecursion};
ghost use Rattle.col_common.specs.Reading.{only_if};
ghost use Rattle.col_common.specs.declared.error.ColumnarError.TheVariants as refusals;
ghost use Rattle.col_merge_terms.specs.Merging.{merging_of, is_on_key, places_of, terms_left};
ghost use Rattle.col_merge_texts.specs.Items.{terms_of, lists_of, item_at};
ghost use Rattle.col_merge_terms.specs.Numbering.{term_count, terms_from, merged_places, Numbers};

use crate::{MatchingSegments, TermMerger, TermsWithSegmentOrd};
use col_common::ColumnarError;
use col_text::BytesColumn;
use std::alloc::{AllocError, Global};

/// For each column the place of each of its terms among all terms, in order.
pub fn compute_merged_term_ord_mapping(
    alloc: Global,
    bytes_columns: &[BytesColumn],
) -> Result<Vec<Vec<u64>>, ColumnarError>
    requires { length bytes_columns.now < 2 ^ 32 }
    ensures ok { IfOk result
        (λ mapping. lists_of mapping.items ≡ merged_places (terms_of bytes_columns.now)) }
    ensures err { IfErr result (λ e. e ≡ refusals.OutOfMemory) }
{
    // Numbers for terms that 64 bits don't count have no room.
    if total_terms(bytes_columns).is_none() {
        return Err(ColumnarError::OutOfMemory);
    }
    let mut mapping = empty_mapping(alloc, bytes_columns)?;
    number_terms(alloc, bytes_columns, &mut mapping)?;
    Ok(mapping)
}

// How many terms the columns have in all; none where 64 bits don't count them.
fn total_terms(bytes_columns: &[BytesColumn]) -> Option<u64>
    ensures { result ≡ only_if (nat_lt (term_count bytes_columns.now) (2 ^ 64))
        (term_count bytes_columns.now) }
{
    let mut total = 0u64;
    for column in bytes_columns {
        total = total.checked_add(column.num_terms() as u64)?;
    }
    Some(total)
}

// A list for each column, with a number for each of its terms.
fn empty_mapping(alloc: Global, bytes_columns: &[BytesColumn]) -> Result<Vec<Vec<u64>>, AllocError>
    ensures { IfOk result
        (λ m. map length (lists_of m.items) ≡ map length (terms_of bytes_columns.now)) }
{
    let mut mapping = Vec::with_capacity(alloc, bytes_columns.len())?;
    for column in bytes_columns {
        mapping.push(vec![in alloc; 0; column.num_terms()]?)?;
    }
    Ok(mapping)
}

// Gives each term of each column its place.
fn number_terms(
    alloc: Global,
    bytes_columns: &[BytesColumn],
    mapping: &mut [Vec<u64>],
) -> Result<(), AllocError>
    requires few { length bytes_columns.now < 2 ^ 32 }
    requires counted { term_count bytes_columns.now < 2 ^ 64 }
    requires lengths { map length (lists_of mapping.old) ≡ map length (terms_of bytes_columns.now) }
    ensures { OnOk result (lists_of mapping.new ≡ merged_places (terms_of bytes_columns.now)) }
{
    let mut merger = merger_of(alloc, bytes_columns)?;
    let mut ord = 0;
    while merger.advance() {
        number_key(&merger, ord, mapping);
        ord += 1;
    }
    Ok(())
}

// The merge of all terms.
fn merger_of(alloc: Global, bytes_columns: &[BytesColumn]) -> Result<TermMerger<'_>, AllocError>
    requires { length bytes_columns.now < 2 ^ 32 }
    ensures { IfOk result
        (λ merger. merger ≡ merging_of (terms_from 0 (terms_of bytes_columns.now))) }
{
    TermMerger::new(alloc, term_streams(alloc, bytes_columns)?)
}

// A walk over the terms of each column.
fn term_streams(
    alloc: Global,
    bytes_columns: &[BytesColumn],
) -> Result<Vec<TermsWithSegmentOrd<'_>>, AllocError>
    ensures terms { IfOk result
        (λ streams. terms_left streams.items ≡ terms_from 0 (terms_of bytes_columns.now)) }
    ensures len { IfOk result (λ streams. length streams.items ≡ length bytes_columns.now) }
{
    let mut streams = Vec::with_capacity(alloc, bytes_columns.len())?;
    for (segment_ord, column) in bytes_columns.iter().enumerate() {
        streams.push(TermsWithSegmentOrd {
            terms: column.dictionary().stream(),
            segment_ord,
        })?;
    }
    Ok(streams)
}

// Gives the terms where the merge stands a number.
fn number_key(merger: &TermMerger<'_>, ord: u64, mapping: &mut [Vec<u64>])
    requires on { is_on_key merger.now ≡ true }
    requires within { AllByRecursion (λ p. is_some (item_at (lists_of mapping.old) p) ≡ true)
        (places_of merger.now.current) }
    ensures { Numbers (places_of merger.now.current) ord
        (lists_of mapping.old) (lists_of mapping.new) }
{
    number_places(merger.matching_segments(), ord, mapping);
}

// Gives the terms at these places a number.
fn number_places(places: MatchingSegments<'_>, ord: u64, mapping: &mut [Vec<u64>])
    requires { AllByRecursion (λ p. is_some (item_at (lists_of mapping.old) p) ≡ true) places }
    ensures { Numbers places.entry ord (lists_of mapping.old) (lists_of mapping.new) }
{
    let mut places = places;
    while let Some((segment, from)) = places.next() {
        number(mapping, segment, from, ord);
    }
}

// Gives the term at a place a number.
fn number(mapping: &mut [Vec<u64>], segment: usize, from: u64, ord: u64)
    requires { is_some (item_at (lists_of mapping.old) (segment, from)) ≡ true }
    ensures { Numbers ((segment, from) ∷ []) ord (lists_of mapping.old) (lists_of mapping.new) }
{
    let ords = &mut mapping[segment];
    ords[from as usize] = ord;
}
