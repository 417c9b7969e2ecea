//! Columns of terms of segments.
ghost use Rattle.std.specs.Prelude.{◌≡◌, ◌<◌, ◌^◌, Some, is_some, length, IfOk, OnOk};
ghost use Rattle.std.specs.List.{AllByRecursion};
ghost use Rattle.col_dynamic.specs.Dynamic.{as_str};
ghost use Rattle.col_merge_texts.specs.Items.{lists_of};
ghost use Rattle.col_sort_rows.specs.Keys.{added, rows_of_all};
ghost use Rattle.col_sort.specs.Texts.{IsTextOr, IsTextOf, AreTexts, IsToldText, all_term_keys};

use crate::firsts::push_firsts;
use crate::key_of::TermPlaces;
use col_common::RowId;
use col_dynamic::{BytesColumn, DynamicColumn, StrColumn};
use col_sort_rows::KeyedRows;
use std::alloc::{AllocError, Global};

/// The columns of terms of segments, which are taken out; an empty one for another segment.
pub(crate) fn segment_texts(
    alloc: Global,
    columns: &mut [Option<DynamicColumn>],
    counts: &[RowId],
) -> Result<Vec<BytesColumn>, AllocError>
    requires { length columns.old ≡ length counts.now }
    ensures { IfOk result (λ texts. AreTexts counts.now columns.old texts.items) }
{
    let mut texts = Vec::with_capacity(alloc, columns.len())?;
    for segment in 0..columns.len() {
        texts.push(text_of(columns[segment].take(), counts[segment]))?;
    }
    Ok(texts)
}

// The column of terms of a segment of so many rows: an empty one where it has none.
fn text_of(column: Option<DynamicColumn>, num_rows: RowId) -> BytesColumn
    ensures { IsTextOf num_rows column result }
{
    match column {
        Some(column) => text_in(column, num_rows),
        None => BytesColumn::empty(num_rows),
    }
}

// The column, where it is one of terms, else an empty one.
fn text_in(column: DynamicColumn, num_rows: RowId) -> BytesColumn
    ensures { IsTextOf num_rows (Some column) result }
{
    if is_str(&column) {
        return str_or_empty(column.into_str(), num_rows);
    }
    bytes_or_empty(column.into_bytes(), num_rows)
}

// Whether the column is one of texts.
fn is_str(column: &DynamicColumn) -> bool
    ensures { result ≡ is_some (as_str column.now) }
{
    matches!(column, DynamicColumn::Str(_))
}

// The column of texts, or an empty one.
fn str_or_empty(column: Option<StrColumn>, num_rows: RowId) -> BytesColumn
    ensures { IsTextOr num_rows column result }
{
    match column {
        Some(column) => BytesColumn::from(column),
        None => BytesColumn::empty(num_rows),
    }
}

// The column of byte strings, or an empty one.
fn bytes_or_empty(column: Option<BytesColumn>, num_rows: RowId) -> BytesColumn
    ensures { IsTextOr num_rows column result }
{
    match column {
        Some(column) => column,
        None => BytesColumn::empty(num_rows),
    }
}

/// That the columns' terms ascend, that values are ordinals of these, and that indexes count just
/// the values.
pub(crate) fn texts_are_told(texts: &[BytesColumn])
    ensures { AllByRecursion IsToldText texts.now }
{
    for text in texts {
        text.ordinals_are_told();
    }
}

/// Adds the rows of all segments, by the places of their terms.
pub(crate) fn push_texts(
    alloc: Global,
    texts: &[BytesColumn],
    places: &[Vec<u64>],
    rows: &mut KeyedRows<u64>,
) -> Result<(), AllocError>
    requires long { length texts.now ≡ length places.now }
    requires few { length texts.now < 2 ^ 32 }
    ensures { OnOk result (rows.new
        ≡ added rows.old (rows_of_all 0 (all_term_keys texts.now (lists_of places.now)))) }
{
    for segment in 0..texts.len() {
        let keys = TermPlaces {
            places: &places[segment],
        };
        push_firsts(alloc, texts[segment].ords(), &keys, segment as u32, rows)?;
    }
    Ok(())
}
