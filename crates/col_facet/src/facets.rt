//! Facets of columns.
ghost use Rattle.std.specs.Prelude.{◌≡◌, true, length, map, IfOk};
ghost use Rattle.col_common.specs.Ascending.{AreBelow, is_rising};
ghost use Rattle.col_column.specs.Columns.{rows_of_values, num_docs_in};
ghost use Rattle.col_dynamic.specs.Dynamic.{type_of, content_of};
ghost use Rattle.col_model.specs.Facets.{facet_of};
ghost use Rattle.col_numbers.specs.NumValues.{num_values_of};
ghost use Rattle.col_facet.specs.Facets.{facets_of, counted_as, are_ascending};
ghost use Rattle.col_facet.specs.Tables.{term_at};
ghost use Rattle.col_facet.specs.Values.{values_in_rows};

use crate::addresses::address_facets;
use crate::counting::counts_of_docs;
use crate::facet_cell::FacetCount;
use crate::numbers::number_facets;
use crate::table::counted_facets;
use col_common::DocId;
use col_dynamic::DynamicColumn;
use col_text::BytesColumn;
use std::alloc::{AllocError, Global};

/// How often each cell stands in the rows of documents that ascend: those that do, ascending.
pub fn facet(
    alloc: Global,
    column: &DynamicColumn,
    docs: &[DocId],
) -> Result<Vec<FacetCount>, AllocError>
    requires rising { is_rising docs.now ≡ true }
    requires below { AreBelow (length (content_of column.now).rows) docs.now }
    ensures ok { IfOk result (λ facets. facets.items
        ≡ counted_as (type_of column.now) (facet_of (content_of column.now) docs.now)) }
    ensures ascending { IfOk result (λ facets. are_ascending facets.items ≡ true) }
{
    match column {
        DynamicColumn::Bool(column) => number_facets(alloc, column, docs),
        DynamicColumn::I64(column) => number_facets(alloc, column, docs),
        DynamicColumn::U64(column) => number_facets(alloc, column, docs),
        DynamicColumn::IpAddr(column) => address_facets(alloc, column, docs),
        DynamicColumn::DateTime(column) => number_facets(alloc, column, docs),
        DynamicColumn::Bytes(column) => term_facets(alloc, column, docs),
        DynamicColumn::Str(column) => term_facets(alloc, column.bytes_column(), docs),
    }
}

// Those of terms, by a table of the counts of all ordinals.
fn term_facets(
    alloc: Global,
    column: &BytesColumn,
    docs: &[DocId],
) -> Result<Vec<FacetCount>, AllocError>
    requires rising { is_rising docs.now ≡ true }
    requires below { AreBelow (num_docs_in num_values_of column.now.ords) docs.now }
    ensures { IfOk result (λ facets. facets.items ≡ facets_of (map (term_at column.now.terms)
        (values_in_rows (rows_of_values num_values_of column.now.ords) docs.now))) }
{
    column.ordinals_are_told();
    let counts = counts_of_docs(alloc, column.ords(), docs, 0, column.num_terms())?;
    counted_facets(alloc, column.dictionary(), counts.as_slice())
}
