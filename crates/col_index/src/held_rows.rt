//! Rows with a value, as an index has them.
ghost use Rattle.std.specs.Prelude.{◌≡◌, ◌<◌};
ghost use Rattle.col_common.specs.Reading.{only_if};
ghost use Rattle.col_model.specs.Index.{set_counts};
ghost use Rattle.col_model.specs.Positions.{rank, index_range};
ghost use Rattle.col_index.specs.Held.{set_held};
ghost use Rattle.col_index.specs.Sets.{holds};

use crate::listed_rows::ListedRows;
use crate::row_runs::RowRuns;
use col_common::RowId;
use std::ops::Range;

/// Rows with a value, in a list or in runs.
#[derive(Drop)]
pub(crate) enum HeldRows {
    Listed(ListedRows),
    InRuns(RowRuns),
}

impl HeldRows {
    /// Whether a row has a value.
    #[inline(always)]
    pub fn contains(&self, row_id: RowId) -> bool
        ensures { result ≡ holds (set_held self.now).rows row_id }
    {
        match self {
            HeldRows::Listed(rows) => rows.contains(row_id),
            HeldRows::InRuns(runs) => runs.contains(row_id),
        }
    }

    /// How many rows before a row have a value.
    #[inline(always)]
    pub fn rank(&self, row_id: RowId) -> RowId
        ensures { result ≡ rank (set_held self.now).rows row_id }
    {
        match self {
            HeldRows::Listed(rows) => rows.rank(row_id),
            HeldRows::InRuns(runs) => runs.rank(row_id),
        }
    }

    /// How many rows before a row have a value, and whether it has one itself.
    #[inline(always)]
    pub fn rank_and_contains(&self, row_id: RowId) -> (RowId, bool)
        ensures rank { result.0 ≡ rank (set_held self.now).rows row_id }
        ensures held { result.1 ≡ holds (set_held self.now).rows row_id }
    {
        match self {
            HeldRows::Listed(rows) => rows.rank_and_contains(row_id),
            HeldRows::InRuns(runs) => runs.rank_and_contains(row_id),
        }
    }

    /// The rank of a row that has a value.
    #[inline(always)]
    pub fn rank_if_exists(&self, row_id: RowId) -> Option<RowId>
        ensures { result ≡ only_if (holds (set_held self.now).rows row_id)
            (rank (set_held self.now).rows row_id) }
    {
        match self {
            HeldRows::Listed(rows) => rows.rank_if_exists(row_id),
            HeldRows::InRuns(runs) => runs.rank_if_exists(row_id),
        }
    }

    /// Whether a row has a value, out of line.
    #[inline(never)]
    pub fn far_contains(&self, row_id: RowId) -> bool
        ensures { result ≡ holds (set_held self.now).rows row_id }
    {
        self.contains(row_id)
    }

    /// How many rows before a row have a value, out of line.
    #[cold]
    #[inline(never)]
    pub fn far_rank(&self, row_id: RowId) -> RowId
        ensures { result ≡ rank (set_held self.now).rows row_id }
    {
        self.rank(row_id)
    }

    /// The rank of a row that has a value, out of line.
    #[inline(never)]
    pub fn far_rank_if_exists(&self, row_id: RowId) -> Option<RowId>
        ensures { result ≡ only_if (holds (set_held self.now).rows row_id)
            (rank (set_held self.now).rows row_id) }
    {
        self.rank_if_exists(row_id)
    }

    /// The positions of a row's values.
    #[inline(always)]
    pub fn range(&self, row_id: RowId) -> Range<RowId>
        requires { row_id < (set_held self.now).num_rows }
        ensures start { result.start ≡ (index_range (set_counts (set_held self.now)) row_id).0 }
        ensures end { result.end ≡ (index_range (set_counts (set_held self.now)) row_id).1 }
    {
        match self {
            HeldRows::Listed(rows) => rows.range(row_id),
            HeldRows::InRuns(runs) => runs.range(row_id),
        }
    }
}
