//! Indexes whose rows with a value are walked.
use crate::listed_rows::ListedRows;
use crate::multivalued_index_v1::MultiValueIndexV1;
use crate::row_runs::RowRuns;

/// Rows with a value in a list, by the start offsets of all rows, or in runs.
#[derive(Clone, Copy)]
pub(crate) enum WalkedRows<'a> {
    OfListed(&'a ListedRows),
    OfOffsets(&'a MultiValueIndexV1),
    OfRuns(&'a RowRuns),
}
