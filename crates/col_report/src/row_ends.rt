//! Where the values of rows end.
ghost use Rattle.std.specs.Prelude.{◌≡◌, ◌+◌, ◌<◌, ◌^◌, replicate, slice_get, Some};
ghost use Rattle.col_model.specs.Index.{set_counts};
ghost use Rattle.col_model.specs.Positions.{rows_with_value, starts_of};

use col_common::{DocId, RowId};
use col_index::{MultiValueIndex, OptionalIndex};

// How many values rows have, where these stand one row's behind another's.
pub(crate) trait RowEnds {
    ghost use Rattle.std.specs.Prelude.{List, ℕ};

    /// How many values each row has.
    ghost counts: { Self → List ℕ };

    // Where the values of a row end, before which so many rows have a value.
    fn end_at(&self, rank: RowId, row: DocId) -> RowId
        requires few { rank + 1 < 2 ^ 32 }
        requires row { slice_get (rows_with_value (counts self.now)) rank ≡ Some row }
        ensures { slice_get (starts_of (counts self.now)) (rank + 1) ≡ Some result };
}

// So many rows of one value each.
#[derive(Drop)]
pub(crate) struct EachRow {
    pub(crate) num_rows: RowId,
}

impl RowEnds for EachRow {
    ghost counts = { λ e. replicate e.num_rows 1 };

    #[inline(always)]
    fn end_at(&self, rank: RowId, row: DocId) -> RowId {
        rank + 1
    }
}

impl RowEnds for OptionalIndex {
    ghost counts = { λ i. set_counts i };

    #[inline(always)]
    fn end_at(&self, rank: RowId, row: DocId) -> RowId {
        self.rows_rise();
        rank + 1
    }
}

impl RowEnds for MultiValueIndex {
    ghost use Rattle.col_index.specs.MultiValues.{value_counts_of};

    ghost counts = { λ i. value_counts_of i };

    #[inline(always)]
    fn end_at(&self, rank: RowId, row: DocId) -> RowId {
        match self.next_end(rank as u64, row) {
            Some((_, end)) => end,
            None => unreachable!(),
        }
    }
}
