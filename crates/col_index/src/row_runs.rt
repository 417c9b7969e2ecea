//! Rows with a value that stand in runs. The rows are never listed: ranks are found by the starts
//! of runs.
ghost use Rattle.std.specs.Prelude.{◌≡◌, ◌<◌, ◌≤◌, ◌+◌, ◌-◌, ◌*◌, ◌^◌, min, nat_lt, length, slice_get, slice_index};
ghost use Rattle.std.specs.Prelude.{Some, IfOk};
ghost use Rattle.col_common.specs.Ascending.{differences};
ghost use Rattle.col_common.specs.Decoding.{Decodes};
ghost use Rattle.col_common.specs.Reading.{only_if};
ghost use Rattle.col_model.specs.Index.{run_rows, runs_of, set_counts};
ghost use Rattle.col_model.specs.Positions.{rank, index_range};
ghost use Rattle.col_numbers.specs.Readers.{list_of};
ghost use Rattle.col_index.specs.Ranks.{AreRanks};
ghost use Rattle.col_index.specs.Runs.{AreRunTables, AreSummedRuns, rows_of_runs, runs_by};
ghost use Rattle.col_index.specs.RunPlaces.{HasRank, IsLastRun, IsNear, IsRunOf, IsRunPlace};
ghost use Rattle.col_index.specs.Sets.{AreRows, holds};

use crate::rank_words::RankWords;
use crate::run_bits::bits_of_runs;
use crate::run_places::{Run, RunPlace};
use crate::run_starts::RunStarts;
use crate::selected_runs::{NumberedRun, lent_run, numbered_run, select_in};
use crate::summed_runs::{RunSums, sum_runs};
use col_common::{ColumnarError, RowId, Steps};
use col_numbers::U64Values;
use std::alloc::{AllocError, Global};
use std::marker::Model;
use std::ops::Range;
use std::sync::ledger::Ledger;

/// Rows in runs: where these start, how many rows stand before each of them and in all, and for so
/// many of them how far a row in the last one is above its rank. Contracts see the row count and
/// the rows of the runs.
#[derive(Drop)]
pub(crate) struct RowRuns {
    starts: RunStarts,
    before: Vec<u32>,
    gaps: Vec<u32>,
}

impl Model for RowRuns {
    ghost use Rattle.col_model.specs.Index.{RowSet};
    ghost use Rattle.col_index.specs.Runs.{AreRunTables, rows_of_runs};

    ghost Value = { RowSet };

    ghost view = { λ r. rows_of_runs r.starts r.before.items };

    ghost invariant = { λ r. AreRunTables r.starts r.before.items r.gaps.items };
}

// A rank that a row would have, and the first that none has.
#[derive(Clone, Copy)]
struct RankBound {
    rank: u32,
    upto: u32,
}

impl RowRuns {
    /// The rows of runs with these starts and lengths, if they are runs of so many rows.
    pub(crate) fn from_lists(
        alloc: Global,
        num_rows: RowId,
        starts: U64Values,
        lengths: U64Values,
    ) -> Result<RowRuns, ColumnarError>
        ensures { Decodes (λ runs. runs) result
            (runs_by num_rows (list_of starts) (list_of lengths)) }
    {
        let sums = sum_runs(alloc, num_rows, &starts, &lengths)?;
        RowRuns::from_sums(alloc, num_rows, starts, sums)
    }

    // The same by the sums of the lengths.
    fn from_sums(
        alloc: Global,
        num_rows: RowId,
        starts: U64Values,
        sums: RunSums,
    ) -> Result<RowRuns, ColumnarError>
        requires { AreRunTables (record { num_rows = num_rows; rows = list_of starts })
            sums.before.items sums.gaps.items }
        ensures { Decodes (λ runs. runs) result (Some (rows_of_runs
            (record { num_rows = num_rows; rows = list_of starts }) sums.before.items)) }
    {
        let starts = RunStarts::from_rows(alloc, num_rows, starts)?;
        Ok(RowRuns {
            starts,
            before: sums.before,
            gaps: sums.gaps,
        })
    }

    /// The bits of the rows, none where there are many rows for each run.
    pub(crate) fn bits(&self, alloc: Global) -> Result<RankWords, AllocError>
        ensures { IfOk result (λ bits.
            AreRanks self.now.rows bits.words.items bits.before.items) }
    {
        bits_of_runs(alloc, &self.starts, &self.before)
    }

    /// The same rows once more.
    pub(crate) fn try_clone(&self, alloc: Global) -> Result<RowRuns, AllocError>
        ensures { IfOk result (λ runs. runs ≡ self.now) }
    {
        Ok(RowRuns {
            starts: self.starts.try_clone(alloc)?,
            before: Vec::from_clones(alloc, &self.before)?,
            gaps: Vec::from_clones(alloc, &self.gaps)?,
        })
    }

    /// How many rows there are.
    pub(crate) fn num_docs(&self) -> RowId
        ensures { result ≡ self.now.num_rows }
    {
        self.starts.num_docs()
    }

    /// How many rows have a value.
    pub(crate) fn num_non_nulls(&self) -> RowId
        ensures { result ≡ length self.now.rows }
    {
        self.before[self.starts.num_non_nulls() as usize]
    }

    /// How many runs there are.
    pub(crate) fn num_runs(&self) -> RowId
        ensures { result ≡ length (runs_of self.now.rows) }
    {
        self.starts.num_non_nulls()
    }

    /// The run at a place: its first row, and how many rows it has.
    pub(crate) fn run(&self, at: RowId) -> (RowId, RowId)
        requires { at < length (runs_of self.now.rows) }
        ensures { slice_get (runs_of self.now.rows) at ≡ Some result }
    {
        lent_run(&self.starts, &self.before, at)
    }

    /// The rows rise and stay below the count.
    pub(crate) fn rows_rise(&self)
        ensures { AreRows self.now }
    {
        // That the rows are those of runs is known where a field is read.
        let _ = &self.starts;
    }

    /// How many rows with a value stand before a row.
    #[inline(always)]
    pub(crate) fn rank(&self, row_id: RowId) -> RowId
        ensures { result ≡ rank self.now.rows row_id }
    {
        let bound = self.rank_bound(row_id);
        bound.rank.min(bound.upto)
    }

    /// The same, where each look at the start of a run is a step: the starts are searched by
    /// halves. Clause `least` keeps a search from passing that counts none of its looks.
    pub(crate) fn rank_counted<L: Ledger>(&self, row_id: RowId, steps: &mut Steps<L>) -> RowId
        ensures rank { result ≡ rank self.now.rows row_id }
        ensures steps { 2 ^ (steps.new - steps.old) ≤ 2 * length self.now.rows + 2 }
        ensures least { length (runs_of self.now.rows) + 2 ≤ 2 * 2 ^ (steps.new - steps.old) }
    {
        let count = self
            .starts
            .rank_counted(row_behind(&self.starts, row_id), steps);
        let run = last_run(&self.starts, &self.before, count);
        run.before + (row_id - run.start).min(run.len)
    }

    /// How many rows before a row have a value, and whether it has one itself.
    #[inline(always)]
    pub(crate) fn rank_and_contains(&self, row_id: RowId) -> (RowId, bool)
        ensures rank { result.0 ≡ rank self.now.rows row_id }
        ensures held { result.1 ≡ holds self.now.rows row_id }
    {
        let bound = self.rank_bound(row_id);
        (bound.rank.min(bound.upto), bound.rank < bound.upto)
    }

    /// The rank of a row that has a value.
    #[inline(always)]
    pub(crate) fn rank_if_exists(&self, row_id: RowId) -> Option<RowId>
        ensures { result ≡ only_if (holds self.now.rows row_id) (rank self.now.rows row_id) }
    {
        let bound = self.rank_bound(row_id);
        if bound.rank < bound.upto {
            Some(bound.rank)
        } else {
            None
        }
    }

    /// The positions of a row's values.
    #[inline(never)]
    pub(crate) fn range(&self, row_id: RowId) -> Range<RowId>
        requires { row_id < self.now.num_rows }
        ensures start { result.start ≡ (index_range (set_counts self.now) row_id).0 }
        ensures end { result.end ≡ (index_range (set_counts self.now) row_id).1 }
    {
        self.rows_rise();
        // That rows are below a count of 32 bits is known of the count.
        let _num_docs = self.num_docs();
        let bound = self.rank_bound(row_id);
        if bound.rank < bound.upto {
            bound.rank..bound.rank + 1
        } else {
            bound.upto..bound.upto
        }
    }

    /// Whether a row has a value.
    #[inline(always)]
    pub(crate) fn contains(&self, row_id: RowId) -> bool
        ensures { result ≡ holds self.now.rows row_id }
    {
        let bound = self.rank_bound(row_id);
        bound.rank < bound.upto
    }

    /// The row with a rank.
    pub(crate) fn select(&self, rank: RowId) -> RowId
        requires { rank < length self.now.rows }
        ensures { slice_get self.now.rows rank ≡ Some result }
    {
        select_in(&self.starts, &self.before, rank)
    }

    /// The row with a rank, by the run that the one before was found in.
    #[inline(always)]
    pub(crate) fn select_near(&self, near: &mut NumberedRun, rank: RowId) -> RowId
        requires rank { rank < length self.now.rows }
        requires near { IsRunOf self.now.rows near.old.run }
        ensures near { IsRunOf self.now.rows near.new.run }
        ensures row { slice_get self.now.rows rank ≡ Some result }
    {
        self.seek_rank(near, rank);
        near.run.row_with(rank)
    }

    // Makes a run one that has the row of a rank.
    #[inline(always)]
    fn seek_rank(&self, near: &mut NumberedRun, rank: RowId)
        requires rank { rank < length self.now.rows }
        requires near { IsRunOf self.now.rows near.old.run }
        ensures near { IsRunOf self.now.rows near.new.run }
        ensures rank { HasRank near.new.run rank }
    {
        if !near.run.has_rank(rank) {
            *near = self.run_with(near.next, rank);
        }
    }

    /// The run with the row of a rank; it is looked for at a number first.
    #[inline(never)]
    pub(crate) fn run_with(&self, number: u64, rank: RowId) -> NumberedRun
        requires { rank < length self.now.rows }
        ensures run { IsRunOf self.now.rows result.run }
        ensures rank { HasRank result.run rank }
    {
        numbered_run(&self.starts, &self.before, number, rank)
    }

    /// The place of row 0.
    pub(crate) fn first_place(&self) -> RunPlace
        ensures { IsRunPlace self.now.rows result }
    {
        self.place_of(0)
    }

    /// The rank of a row that has a value, by a walk: in few instructions where the row is one of
    /// the place.
    #[inline(always)]
    pub(crate) fn rank_near(&self, place: &mut RunPlace, row_id: RowId) -> Option<RowId>
        requires { IsRunPlace self.now.rows place.old }
        ensures place { IsRunPlace self.now.rows place.new }
        ensures rank { result ≡ only_if (holds self.now.rows row_id) (rank self.now.rows row_id) }
    {
        self.seek(place, row_id);
        place.run.rank_if_exists(row_id)
    }

    /// Makes a place that of a row.
    #[inline(always)]
    pub(crate) fn seek(&self, place: &mut RunPlace, row_id: RowId)
        requires { IsRunPlace self.now.rows place.old }
        ensures place { IsRunPlace self.now.rows place.new }
        ensures near { IsNear place.new row_id }
    {
        if !place.is_near(row_id) {
            *place = self.place_of(row_id);
        }
    }

    // The rank of a row if it is in the last of the runs that start at or before it, and how many
    // rows are in these runs.
    #[inline(always)]
    fn rank_bound(&self, row_id: RowId) -> RankBound
        ensures count { rank self.now.rows row_id ≡ min result.rank result.upto }
        ensures held { holds self.now.rows row_id ≡ nat_lt result.rank result.upto }
    {
        let gaps = self.gaps.as_slice();
        let before = self.before.as_slice();
        let count = self.starts.count_upto(row_id) as usize;
        RankBound {
            rank: row_id - gaps[count],
            upto: before[count],
        }
    }

    // The place of a row.
    #[inline(never)]
    fn place_of(&self, row_id: RowId) -> RunPlace
        ensures place { IsRunPlace self.now.rows result }
        ensures near { IsNear result row_id }
    {
        let count = self.starts.count_upto(row_id);
        let run = last_run(&self.starts, &self.before, count);
        let span = last_before(&self.starts, count, row_id) - run.start;
        RunPlace { run, span }
    }
}

// A row that as many starts stand before as stand at or before another row.
#[inline(always)]
fn row_behind(starts: &RunStarts, row_id: RowId) -> RowId
    ensures { rank starts.now.rows result ≡ rank starts.now.rows (row_id + 1) }
{
    // That starts are below a count of 32 bits is known of the count.
    let _count = starts.num_docs();
    starts.rows_rise();
    row_id.saturating_add(1)
}

// The last of so many runs, an empty one at row 0 where there is none.
#[inline(always)]
fn last_run(starts: &RunStarts, before: &[u32], count: u32) -> Run
    requires summed { AreSummedRuns starts.now before.now }
    requires count { count ≤ length starts.now.rows }
    ensures fits { result.before + result.len < 2 ^ 32 }
    ensures end { result.start + result.len < 2 ^ 32 }
    ensures apart { count < length starts.now.rows
        → result.start + result.len ≤ slice_index starts.now.rows count }
    ensures start { 0 < count → slice_index starts.now.rows (count - 1) ≡ result.start }
    ensures run { IsLastRun starts.now.rows
        (run_rows starts.now.rows (differences before.now)) count result }
{
    // That rows are below a count of 32 bits is known of the count.
    let _count = starts.num_docs();
    if count == 0 {
        return Run {
            start: 0,
            len: 0,
            before: 0,
        };
    }
    let sum = before[count as usize - 1];
    Run {
        start: starts.select(count - 1),
        len: before[count as usize] - sum,
        before: sum,
    }
}

// The last row before the next start behind a row, or the greatest row where there is none.
#[inline(always)]
fn last_before(starts: &RunStarts, count: u32, row_id: RowId) -> RowId
    requires { count ≡ rank starts.now.rows (row_id + 1) }
    ensures row { row_id ≤ result }
    ensures next { count < length starts.now.rows
        → slice_index starts.now.rows count ≡ result + 1 }
    ensures last { length starts.now.rows ≤ count → result ≡ 2 ^ 32 - 1 }
{
    starts.rows_rise();
    if count < starts.num_non_nulls() {
        starts.select(count) - 1
    } else {
        RowId::MAX
    }
}
