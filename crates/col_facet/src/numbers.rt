//! Facets of numbers: by a table of counts where they lie close to one another, else in order.
ghost use Rattle.std.specs.Prelude.{◌≡◌, ◌<◌, true, length, map, IfOk, IfSome};
ghost use Rattle.col_common.specs.Ascending.{AreBelow, is_rising};
ghost use Rattle.col_column.specs.Columns.{rows_of_values, num_docs_in};
ghost use Rattle.col_values.specs.Values.{IsAtMost};
ghost use Rattle.col_facet.specs.Facets.{facets_of};
ghost use Rattle.col_facet.specs.Tables.{IsPlaced, ArePlaced};
ghost use Rattle.col_facet.specs.Values.{values_in_rows};

use crate::counting::{counts_of_all, counts_of_docs};
use crate::facet_cell::FacetCount;
use crate::facet_number::FacetNumber;
use crate::runs::{facets_of_list, value_facets};
use crate::table::{counted_facets, places_of};
use col_column::Column;
use col_common::DocId;
use col_values::ColumnValues;
use std::alloc::{AllocError, Global};

// How many places a table has of numbers from the least to the greatest, where so many are few for
// the values that are counted.
fn table_len<T: FacetNumber>(least: T, greatest: T, num_values: usize) -> Option<usize>
    ensures { IfSome result (λ len. (x : T) → IsAtMost T.partial_cmp least x
        → IsAtMost T.partial_cmp x greatest
        → IsPlaced T.code T.cell (T.cells least) (T.code least) len x) }
{
    T::cells_have_places();
    least.known();
    let span = greatest.to_u64().checked_sub(least.to_u64())?;
    if span >= places_of(num_values) as u64 {
        return None;
    }
    Some(span as usize + 1)
}

/// How often the cells of the numbers of a list stand there.
pub(crate) fn facets_of_numbers<T: FacetNumber, V: ColumnValues<T>>(
    alloc: Global,
    list: &V,
) -> Result<Vec<FacetCount>, AllocError>
    ensures { IfOk result (λ facets. facets.items ≡ facets_of (map T.cell (V.values list.now))) }
{
    let least = list.min_value();
    let greatest = list.max_value();
    if least == greatest {
        return facets_of_list(alloc, list);
    }
    match table_len(least, greatest, list.num_vals() as usize) {
        Some(len) => table_of_list(alloc, list, least, len),
        None => facets_of_list(alloc, list),
    }
}

// The same by a table of so many places.
fn table_of_list<T: FacetNumber, V: ColumnValues<T>>(
    alloc: Global,
    list: &V,
    least: T,
    len: usize,
) -> Result<Vec<FacetCount>, AllocError>
    requires { ArePlaced T.code T.cell T.cells least len (V.values list.now) }
    ensures { IfOk result (λ facets. facets.items ≡ facets_of (map T.cell (V.values list.now))) }
{
    T::cells_have_places();
    let counts = counts_of_all(alloc, list, least.to_u64(), len)?;
    counted_facets(alloc, &least, counts.as_slice())
}

/// How often the cells of numbers stand in the rows of documents.
pub(crate) fn number_facets<T: FacetNumber, V: ColumnValues<T>>(
    alloc: Global,
    column: &Column<T, V>,
    docs: &[DocId],
) -> Result<Vec<FacetCount>, AllocError>
    requires rising { is_rising docs.now ≡ true }
    requires below { AreBelow (num_docs_in V.values column.now) docs.now }
    ensures { IfOk result (λ facets. facets.items ≡ facets_of
        (map T.cell (values_in_rows (rows_of_values V.values column.now) docs.now))) }
{
    let least = column.min_value();
    match table_len(least, column.max_value(), docs.len()) {
        Some(len) => table_of_docs(alloc, column, docs, least, len),
        None => value_facets(alloc, column, docs),
    }
}

// The same by a table of so many places.
fn table_of_docs<T: FacetNumber, V: ColumnValues<T>>(
    alloc: Global,
    column: &Column<T, V>,
    docs: &[DocId],
    least: T,
    len: usize,
) -> Result<Vec<FacetCount>, AllocError>
    requires rising { is_rising docs.now ≡ true }
    requires below { AreBelow (num_docs_in V.values column.now) docs.now }
    requires placed { ArePlaced T.code T.cell T.cells least len (V.values column.now.values) }
    ensures { IfOk result (λ facets. facets.items ≡ facets_of
        (map T.cell (values_in_rows (rows_of_values V.values column.now) docs.now))) }
{
    T::cells_have_places();
    let counts = counts_of_docs(alloc, column, docs, least.to_u64(), len)?;
    counted_facets(alloc, &least, counts.as_slice())
}
