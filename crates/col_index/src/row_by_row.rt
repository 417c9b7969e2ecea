//! Rows with a value that are found one by one.
ghost use Rattle.std.specs.Prelude.{◌≡◌, ◌+◌, ◌<◌, ◌^◌, drop, slice_get, IfSome};
ghost use Rattle.col_common.specs.Walks.{IsNext};
ghost use Rattle.col_model.specs.Positions.{rank};

use crate::listed_rows::ListedRows;
use crate::multivalued_index_v1::MultiValueIndexV1;
use col_common::{DocId, Walk};

/// Rows with a value in a list, or by the start offsets of all rows.
#[derive(Clone, Copy)]
pub(crate) enum RowByRow<'a> {
    Listed(&'a ListedRows),
    ByOffsets(&'a MultiValueIndexV1),
}

impl RowByRow<'_> {
    ghost use Rattle.col_index.specs.Walked.{IsRanked32, IsWalkOfRows, rows_found};

    /// The row where a walk stands, which moves on.
    #[inline(always)]
    pub(crate) fn next_row(self, at: &mut Walk) -> Option<DocId>
        requires { IsWalkOfRows (rows_found self) at.old }
        ensures stands { IsWalkOfRows (rows_found self.entry) at.new }
        ensures value { let rows = rows_found self.entry in
            IsNext (drop at.old.place rows) result (drop at.new.place rows) }
    {
        let row = self.row_from(at.place, at.inner as DocId)?;
        at.place += 1;
        at.inner = u64::from(row) + 1;
        Some(row)
    }

    // The row with a rank, which is the first from a number on.
    #[inline(always)]
    fn row_from(self, place: u64, from: DocId) -> Option<DocId>
        requires { rank (rows_found self) from ≡ place }
        ensures row { result ≡ slice_get (rows_found self.entry) place }
        ensures behind { IfSome result
            (λ row. IsRanked32 (rows_found self.entry) (row + 1) (place + 1)) }
        ensures few { IfSome result (λ _. place < 2 ^ 32) }
    {
        match self {
            RowByRow::Listed(rows) => {
                rows.rows_rise();
                // That rows are below a count of 32 bits is known of the count.
                let _num_docs = rows.num_docs();
                rows.row_at(place)
            }
            RowByRow::ByOffsets(index) => {
                let _num_docs = index.num_docs();
                index.next_non_null_doc(from)
            }
        }
    }
}
