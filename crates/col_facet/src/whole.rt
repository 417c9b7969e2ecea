//! Facets of columns over all their rows.
ghost use Rattle.std.specs.Prelude.{◌≡◌, true, length, map, IfOk};
ghost use Rattle.std.specs.List.{range_with_len};
ghost use Rattle.col_column.specs.Columns.{rows_of_values, num_docs_in};
ghost use Rattle.col_column.specs.IpValues.{ip_values_of};
ghost use Rattle.col_dynamic.specs.Dynamic.{type_of, content_of};
ghost use Rattle.col_model.specs.Facets.{facet_of};
ghost use Rattle.col_numbers.specs.NumValues.{num_values_of};
ghost use Rattle.col_facet.specs.Facets.{facets_of, counted_as, are_ascending};
ghost use Rattle.col_facet.specs.Tables.{term_at};
ghost use Rattle.col_facet.specs.Values.{values_in_rows};
ghost use Rattle.col_facet.specs.declared.facet_cell.FacetCell.TheVariants as cells;

use crate::addresses::facets_of_addresses;
use crate::counting::counts_of_all;
use crate::facet_cell::FacetCount;
use crate::facet_number::FacetNumber;
use crate::numbers::facets_of_numbers;
use crate::table::counted_facets;
use col_column::{Column, IpColumn};
use col_dynamic::DynamicColumn;
use col_text::BytesColumn;
use col_values::ColumnValues;
use std::alloc::{AllocError, Global};

/// How often each cell of a column stands in all its rows, ascending by cell. No list of documents
/// is made; terms, flags, and numbers and addresses that lie close to one another are counted in a
/// table, and other values are sorted where they differ.
pub fn facet_all(alloc: Global, column: &DynamicColumn) -> Result<Vec<FacetCount>, AllocError>
    ensures ok { IfOk result (λ facets. facets.items
        ≡ counted_as (type_of column.now) (facet_of (content_of column.now)
        (range_with_len 0 (length (content_of column.now).rows)))) }
    ensures ascending { IfOk result (λ facets. are_ascending facets.items ≡ true) }
{
    match column {
        DynamicColumn::Bool(column) => all_numbers(alloc, column),
        DynamicColumn::I64(column) => all_numbers(alloc, column),
        DynamicColumn::U64(column) => all_numbers(alloc, column),
        DynamicColumn::IpAddr(column) => all_addresses(alloc, column),
        DynamicColumn::DateTime(column) => all_numbers(alloc, column),
        DynamicColumn::Bytes(column) => all_terms(alloc, column),
        DynamicColumn::Str(column) => all_terms(alloc, column.bytes_column()),
    }
}

// Those of numbers: the values of a column are those of its rows, one row behind another.
fn all_numbers<T, V>(alloc: Global, column: &Column<T, V>) -> Result<Vec<FacetCount>, AllocError>
where
    T: FacetNumber,
    V: ColumnValues<T>,
    ensures { IfOk result (λ facets. facets.items ≡ facets_of (map T.cell
        (values_in_rows (rows_of_values V.values column.now)
        (range_with_len 0 (num_docs_in V.values column.now))))) }
{
    column.values_are_counted();
    facets_of_numbers(alloc, column.values())
}

// The same of addresses.
fn all_addresses(alloc: Global, column: &IpColumn) -> Result<Vec<FacetCount>, AllocError>
    ensures { IfOk result (λ facets. facets.items ≡ facets_of (map (λ n. cells.Addr n)
        (values_in_rows (rows_of_values ip_values_of column.now)
        (range_with_len 0 (num_docs_in ip_values_of column.now))))) }
{
    column.values_are_counted();
    facets_of_addresses(alloc, column.values())
}

// Those of terms, by a table of the counts of all ordinals.
fn all_terms(alloc: Global, column: &BytesColumn) -> Result<Vec<FacetCount>, AllocError>
    ensures { IfOk result (λ facets. facets.items ≡ facets_of (map (term_at column.now.terms)
        (values_in_rows (rows_of_values num_values_of column.now.ords)
        (range_with_len 0 (num_docs_in num_values_of column.now.ords))))) }
{
    column.ordinals_are_told();
    let counts = counts_of_all(alloc, column.ords().values(), 0, column.num_terms())?;
    counted_facets(alloc, column.dictionary(), counts.as_slice())
}
