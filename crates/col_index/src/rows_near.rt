//! Rows that are ranked one behind another, by how that goes fastest.
use crate::listed_rows::ListedRows;
use crate::optional_index::OptionalIndex;
use crate::row_runs::RowRuns;

/// Rows with a value that are walked, or ranked each by itself.
#[derive(Clone, Copy)]
pub(crate) enum RowsNear<'a> {
    Walked(&'a ListedRows),
    Ranked(&'a OptionalIndex),
    InRuns(&'a RowRuns),
}
