//! The runs of an index, as it has them.
ghost use Rattle.std.specs.Prelude.{◌≡◌, ◌<◌, length, slice_get, Some};
ghost use Rattle.col_model.specs.Index.{runs_of};

use crate::row_runs::RowRuns;
use col_common::RowId;
use std::marker::Model;

/// The runs of the rows with a value of an index. Contracts see the row count and these rows.
#[derive(Drop)]
pub struct IndexRuns<'a> {
    runs: &'a RowRuns,
}

impl<'a> Model for IndexRuns<'a> {
    ghost use Rattle.col_model.specs.Index.{RowSet};

    ghost Value = { RowSet };

    ghost view = { λ r. r.runs.now };
}

impl<'a> IndexRuns<'a> {
    /// These runs.
    pub(crate) fn of(runs: &'a RowRuns) -> IndexRuns<'a>
        ensures { result ≡ runs.now }
    {
        IndexRuns { runs }
    }

    /// How many runs there are.
    pub fn num_runs(&self) -> RowId
        ensures { result ≡ length (runs_of self.now.rows) }
    {
        self.runs.num_runs()
    }

    /// The run at a place: its first row, and how many rows it has.
    pub fn run(&self, at: RowId) -> (RowId, RowId)
        requires { at < length (runs_of self.now.rows) }
        ensures { slice_get (runs_of self.now.rows) at ≡ Some result }
    {
        self.runs.run(at)
    }
}
