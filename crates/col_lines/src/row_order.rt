//! The orders of rows that lines say.

use col_common::RowAddr;
use col_types::ColumnType;

/// The column by whose values rows are sorted: rising, or falling where it is reversed.
#[derive(Debug, Drop)]
pub struct SortKey {
    pub name: String,
    pub column_type: ColumnType,
    pub reversed: bool,
}

/// The rows that are named, or all of them, sorted.
#[derive(Debug, Drop)]
pub enum RowOrder {
    Named(Vec<RowAddr>),
    Sorted(SortKey),
}
