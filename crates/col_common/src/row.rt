//! Rows, by their numbers.

/// The number of a row in a table, from 0.
pub type RowId = u32;

/// The same number, of a document in a segment.
pub type DocId = u32;

/// A row of one of several tables.
#[derive(Clone, Copy, Debug)]
pub struct RowAddr {
    /// The number of the table, from 0.
    pub segment_ord: u32,
    pub row_id: RowId,
}
