//! Walks over rows in runs.
ghost use Rattle.std.specs.Prelude.{◌≡◌, ◌≤◌, ◌<◌, true, false, drop, length};
ghost use Rattle.col_common.specs.Walks.{IsNext};
ghost use Rattle.col_index.specs.Walked.{IsWalkOfRows};

use crate::row_runs::RowRuns;
use col_common::{RowId, Walk};

impl RowRuns {
    /// The row where a walk stands, which moves on. A run is looked for where the walk is at its
    /// first row.
    #[inline(always)]
    pub(crate) fn next_row(&self, at: &mut Walk) -> Option<RowId>
        requires { IsWalkOfRows self.now.rows at.old }
        ensures stands { IsWalkOfRows self.now.rows at.new }
        ensures value { let rows = self.now.rows in
            IsNext (drop at.old.place rows) result (drop at.new.place rows) }
    {
        self.rows_rise();
        // That rows are below a count of 32 bits is known of the count.
        let _num_docs = self.num_docs();
        if self.is_inside(at) {
            let row = at.inner as RowId;
            at.place += 1;
            at.inner += 1;
            Some(row)
        } else {
            None
        }
    }

    // Whether a walk stands at a row, which is made the one of its rank.
    #[inline(always)]
    fn is_inside(&self, at: &mut Walk) -> bool
        requires { IsWalkOfRows self.now.rows at.old }
        ensures stands { IsWalkOfRows self.now.rows at.new }
        ensures place { at.new.place ≡ at.old.place }
        ensures inside { result ≡ true → at.new.place < at.new.sum }
        ensures end { result ≡ false → length self.now.rows ≤ at.new.place }
    {
        if at.place < at.sum {
            return true;
        }
        self.enter_run(at)
    }

    // Puts a walk into the run with the row of its rank, if there is one. A call would hold walks in
    // memory.
    #[inline(always)]
    fn enter_run(&self, at: &mut Walk) -> bool
        requires { IsWalkOfRows self.now.rows at.old }
        ensures stands { IsWalkOfRows self.now.rows at.new }
        ensures place { at.new.place ≡ at.old.place }
        ensures inside { result ≡ true → at.new.place < at.new.sum }
        ensures end { result ≡ false → length self.now.rows ≤ at.new.place }
    {
        if at.place >= u64::from(self.num_non_nulls()) {
            return false;
        }
        self.rows_rise();
        let rank = at.place as RowId;
        let near = self.run_with(at.segment, rank);
        at.segment = near.next;
        at.inner = u64::from(near.run.row_with(rank));
        at.sum = u64::from(near.run.before) + u64::from(near.run.len);
        true
    }
}
