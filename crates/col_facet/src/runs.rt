//! Facets of values in order, and of lists of values.
ghost use Rattle.std.specs.Prelude.{◌≡◌, ◌<◌, ◌≤◌, true, length, map, IfOk};
ghost use Rattle.std.specs.List.{All, prefix_len};
ghost use Rattle.std.specs.List.Sorted.{IsSorted};
ghost use Rattle.col_common.specs.Ascending.{AreBelow, is_rising};
ghost use Rattle.col_column.specs.Columns.{rows_of_values, num_docs_in};
ghost use Rattle.col_values.specs.Values.{IsAtMost};
ghost use Rattle.col_facet.specs.Cells.{KeepsOrder};
ghost use Rattle.col_facet.specs.Facets.{facets_of};
ghost use Rattle.col_facet.specs.Values.{values_in_rows};

use crate::blocks::{push_range, values_of_docs};
use crate::facet_cell::FacetCount;
use crate::facet_value::FacetValue;
use crate::place_cells::{OwnCells, PlaceCells};
use col_column::Column;
use col_common::DocId;
use col_values::ColumnValues;
use std::alloc::{AllocError, Global};

/// How often the cells of the values of a list stand there. Values that differ are copied and
/// sorted; equal ones aren't, of which a few bytes may have very many.
pub(crate) fn facets_of_list<T: FacetValue, V: ColumnValues<T>>(
    alloc: Global,
    list: &V,
) -> Result<Vec<FacetCount>, AllocError>
    ensures { IfOk result (λ facets. facets.items ≡ facets_of (map T.cell (V.values list.now))) }
{
    let count = list.num_vals();
    if count == 0 {
        return Ok(Vec::new(alloc));
    }
    let least = list.min_value();
    let greatest = list.max_value();
    if least == greatest {
        return facets_of_equal(alloc, list, least, greatest);
    }
    let mut values = Vec::new(alloc);
    push_range(list, 0, count, &mut values)?;
    facets_of_values(alloc, values)
}

// The same of values between two that are equal.
fn facets_of_equal<T: FacetValue, V: ColumnValues<T>>(
    alloc: Global,
    list: &V,
    least: T,
    greatest: T,
) -> Result<Vec<FacetCount>, AllocError>
    requires some { 0 < length (V.values list.now) }
    requires equal { T.eq least greatest ≡ true }
    requires below { All (IsAtMost T.partial_cmp least) (V.values list.now) }
    requires above { All (λ v. IsAtMost T.partial_cmp v greatest) (V.values list.now) }
    ensures { IfOk result (λ facets. facets.items ≡ facets_of (map T.cell (V.values list.now))) }
{
    T::cells_keep_order();
    let mut facets = Vec::new(alloc);
    facets.push(FacetCount {
        cell: least.to_cell(),
        count: list.num_vals() as u64,
    })?;
    Ok(facets)
}

/// How often the cells of values in the rows of documents stand there.
pub(crate) fn value_facets<T, V>(
    alloc: Global,
    column: &Column<T, V>,
    docs: &[DocId],
) -> Result<Vec<FacetCount>, AllocError>
where
    T: FacetValue,
    V: ColumnValues<T>,
    requires rising { is_rising docs.now ≡ true }
    requires below { AreBelow (num_docs_in V.values column.now) docs.now }
    ensures { IfOk result (λ facets. facets.items ≡ facets_of
        (map T.cell (values_in_rows (rows_of_values V.values column.now) docs.now))) }
{
    let values = values_of_docs(alloc, column, docs)?;
    facets_of_values(alloc, values)
}

// How often the cells of values stand among them.
fn facets_of_values<T: FacetValue>(
    alloc: Global,
    values: Vec<T>,
) -> Result<Vec<FacetCount>, AllocError>
    ensures { IfOk result (λ facets. facets.items ≡ facets_of (map T.cell values.items)) }
{
    T::cells_keep_order();
    facets_of_places(alloc, &OwnCells, values)
}

/// How often the cells of places stand among them, which are sorted.
pub(crate) fn facets_of_places<T: Ord + Copy, P: PlaceCells<T>>(
    alloc: Global,
    cells: &P,
    places: Vec<T>,
) -> Result<Vec<FacetCount>, AllocError>
    requires { KeepsOrder T.cmp (P.cells cells.now) }
    ensures { IfOk result
        (λ facets. facets.items ≡ facets_of (map (P.cells cells.now) places.items)) }
{
    let mut sorted = places;
    sorted.sort_unstable();
    facets_of_sorted(alloc, cells, sorted.as_slice())
}

// The same of places in order.
fn facets_of_sorted<T: Ord + Copy, P: PlaceCells<T>>(
    alloc: Global,
    cells: &P,
    places: &[T],
) -> Result<Vec<FacetCount>, AllocError>
    requires keeps { KeepsOrder T.cmp (P.cells cells.now) }
    requires sorted { IsSorted T.cmp places.now }
    ensures { IfOk result
        (λ facets. facets.items ≡ facets_of (map (P.cells cells.now) places.now)) }
{
    let mut facets = Vec::with_capacity(alloc, count_runs(places))?;
    let mut at = 0;
    while at < places.len() {
        let first = places[at];
        let run = front_run(first, &places[at..]);
        let cell = cells.cell_at(alloc, first)?;
        facets.push(FacetCount {
            cell,
            count: run as u64,
        })?;
        at += run;
    }
    Ok(facets)
}

// How many runs of equal values there are, for the room that their cells take.
fn count_runs<T: Ord + Copy>(values: &[T]) -> usize {
    let mut runs = 1usize;
    for at in 1..values.len() {
        runs = runs.wrapping_add((values[at - 1] != values[at]) as usize);
    }
    runs
}

// How many values at the front are this one.
fn front_run<T: Ord + Copy>(first: T, values: &[T]) -> usize
    ensures run { result ≡ prefix_len (λ v. T.eq v first) values.now }
    ensures within { result ≤ length values.now }
{
    values.iter().take_while(|value| **value == first).count()
}
