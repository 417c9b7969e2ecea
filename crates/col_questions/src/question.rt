//! What is asked of a table.
use crate::lookup::Find;
use crate::query::Query;
use col_types::ColumnType;

/// A question: the documents of a lookup, how often each cell of a column stands, or the documents
/// of a query.
#[derive(Debug, Drop)]
pub enum Question {
    Find(Find),
    Facet {
        name: String,
        column_type: ColumnType,
    },
    Query(Query),
}
