//! How many different terms stand in columns.
ghost use Rattle.std.specs.Prelude.{◌≡◌, ◌<◌, ◌==◌, ◌||◌, ℕ, false, length, map, slice_index_or, count_by, take, drop, IfOk, OnOk};
ghost use Rattle.std.specs.List.{list_any};
ghost use Rattle.col_common.specs.Ascending.{AreBelow};
ghost use Rattle.col_dynamic.specs.Dynamic.{type_of, content_of};
ghost use Rattle.col_facet.specs.Facets.{facets_of};
ghost use Rattle.col_facet.specs.Tables.{term_at};
ghost use Rattle.col_look.specs.Described.{distinct_terms};
ghost use Rattle.col_look.specs.Ends.{cells_of};
ghost use Rattle.col_text.specs.NumValues.{num_values_of};

use crate::blocks::{new_block, read_block};
use crate::valued_rows::values_are_counted;
use col_dynamic::{BytesColumn, DynamicColumn, NumValues};
use col_values::ColumnValues;
use std::alloc::{AllocError, Global};

/// How many different terms a column of texts or bytes has; none of another type.
pub(crate) fn distinct_terms(
    alloc: Global,
    column: &DynamicColumn,
) -> Result<Option<u64>, AllocError>
    ensures { IfOk result (λ count. count
        ≡ distinct_terms (type_of column.now) (cells_of (content_of column.now))) }
{
    values_are_counted(column);
    match column {
        DynamicColumn::Bytes(column) => Ok(Some(terms_with_rows(alloc, column)?)),
        DynamicColumn::Str(column) => Ok(Some(terms_with_rows(alloc, column.bytes_column())?)),
        _ => Ok(None),
    }
}

// How many terms of the dictionary some row has.
fn terms_with_rows(alloc: Global, column: &BytesColumn) -> Result<u64, AllocError>
    ensures { IfOk result (λ count. count ≡ length (facets_of
        (map (term_at column.now.terms) (num_values_of column.now.ords.values)))) }
{
    column.ordinals_are_told();
    let mut marks = vec![in alloc; false; column.num_terms()]?;
    mark_all(alloc, column.ords().values(), marks.as_mut_slice())?;
    Ok(count_marks(marks.as_slice()))
}

// Marks the places of all values of a list, where none was marked yet.
fn mark_all(alloc: Global, list: &NumValues<u64>, marks: &mut [bool]) -> Result<(), AllocError>
    requires below { AreBelow (length marks.old) (num_values_of list.now) }
    requires none { (i : ℕ) → slice_index_or marks.old i false ≡ false }
    ensures { OnOk result ((i : ℕ) → slice_index_or marks.new i false
        ≡ list_any (λ n. n == i) (num_values_of list.now)) }
{
    let count = list.num_vals() as usize;
    let mut block = new_block(alloc, list)?;
    let mut at = 0;
    while at < count {
        let len = read_block(list, at, block.as_mut_slice());
        mark_each(&block[..len], marks);
        at += len;
    }
    Ok(())
}

// Marks the places of values, beside those that are marked.
fn mark_each(values: &[u64], marks: &mut [bool])
    requires { AreBelow (length marks.old) values.now }
    ensures { (i : ℕ) → slice_index_or marks.new i false
        ≡ (slice_index_or marks.old i false || list_any (λ n. n == i) values.now) }
{
    for value in values {
        marks[*value as usize] = true;
    }
}

// How many marks are set.
fn count_marks(marks: &[bool]) -> u64
    ensures { result ≡ count_by (λ mark. mark) marks.now }
{
    let mut count = 0;
    for mark in marks {
        count += u64::from(*mark);
    }
    count
}
