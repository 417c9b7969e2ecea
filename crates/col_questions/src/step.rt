//! The steps of a query.
use crate::query_value::QueryValue;
use col_types::ColumnType;

/// What joins sets of documents.
#[derive(Clone, Copy, Debug)]
pub enum Joint {
    And,
    Or,
}

/// A step puts a set of documents on a stack, or changes those on top: Not turns the top over,
/// Begin puts the set of no members, and Join takes the top off and joins it to the one below.
#[derive(Debug, Drop)]
pub enum Step {
    All,
    Has {
        name: String,
        column_type: ColumnType,
    },
    Range {
        name: String,
        column_type: ColumnType,
        lo: QueryValue,
        hi: QueryValue,
    },
    Not,
    Begin(Joint),
    Join(Joint),
}
