//! Laws about columns, each the contract of a public call.
ghost use Rattle.std.specs.Prelude.{◌≡◌, ◌<◌, length};
ghost use Rattle.col_column.specs.Columns.{rows_of_values, row_at, num_docs_in};
ghost use Rattle.col_column.specs.Laws.{LookupsAreThoseOfCells};

use crate::column::Column;
use col_common::DocId;
use col_types::HasAssociatedColumnType;
use col_values::ColumnValues;

/// How many values a walk over a document's values gives before it ends: as many as its row has.
pub fn count_doc_values<T, V>(column: &Column<T, V>, doc: DocId) -> u64
where
    T: PartialOrd + Copy,
    V: ColumnValues<T>,
    requires { doc < num_docs_in V.values column.now }
    ensures { result ≡ length (row_at (rows_of_values V.values column.now) doc) }
{
    let mut count = 0;
    for _value in column.values_for_doc(doc) {
        count += 1;
    }
    count
}

/// A lookup by values finds the documents that a filter of the column's cells gives.
pub fn lookups_are_those_of_cells<T: HasAssociatedColumnType>()
    ensures { LookupsAreThoseOfCells T.partial_cmp T.cell }
{}
