//! The runs of rows by the ranks of these.
ghost use Rattle.std.specs.Prelude.{◌≡◌, ◌<◌, ◌≤◌, ◌+◌, length, slice_get, slice_index, Some};
ghost use Rattle.col_common.specs.Ascending.{differences};
ghost use Rattle.col_model.specs.Index.{run_rows, runs_of};
ghost use Rattle.col_index.specs.Runs.{AreSummedRuns};
ghost use Rattle.col_index.specs.RunPlaces.{HasRank, IsRunOf};

use crate::run_places::Run;
use crate::run_starts::RunStarts;
use col_common::RowId;

/// A run, and the number of the one behind it.
#[derive(Clone, Copy)]
pub(crate) struct NumberedRun {
    pub run: Run,
    pub next: u64,
}

impl NumberedRun {
    ghost use Rattle.std.specs.Prelude.{ℕ, List};

    /// A run without rows, in front of all others.
    #[inline(always)]
    pub(crate) fn none() -> NumberedRun
        ensures { (rows : List ℕ) → IsRunOf rows result.run }
    {
        let run = Run {
            start: 0,
            len: 0,
            before: 0,
        };
        NumberedRun { run, next: 0 }
    }
}

/// The row with a rank.
pub(crate) fn select_in(starts: &RunStarts, before: &[u32], rank: RowId) -> RowId
    requires summed { AreSummedRuns starts.now before.now }
    requires rank { rank < length (run_rows starts.now.rows (differences before.now)) }
    ensures { slice_get (run_rows starts.now.rows (differences before.now)) rank ≡ Some result }
{
    // That rows are below a count of 32 bits is known of the count.
    let _count = starts.num_docs();
    let run = run_with(before, starts.num_non_nulls(), rank);
    starts.select(run) + (rank - before[run as usize])
}

// The run with the row of a rank, by halves.
fn run_with(before: &[u32], count: u32, rank: RowId) -> u32
    requires some { 0 < count }
    requires long { length before.now ≡ count + 1 }
    requires first { slice_index before.now 0 ≤ rank }
    requires last { rank < slice_index before.now count }
    ensures within { result < count }
    ensures from { slice_index before.now result ≤ rank }
    ensures upto { rank < slice_index before.now (result + 1) }
{
    let mut low = 0;
    let mut high = count;
    while high - low > 1 {
        let middle = low + (high - low) / 2;
        if before[middle as usize] <= rank {
            low = middle;
        } else {
            high = middle;
        }
    }
    low
}

/// The run with the row of a rank, which is looked for at a number first.
#[inline(always)]
pub(crate) fn numbered_run(
    starts: &RunStarts,
    before: &[u32],
    number: u64,
    rank: RowId,
) -> NumberedRun
    requires summed { AreSummedRuns starts.now before.now }
    requires rank { rank < length (run_rows starts.now.rows (differences before.now)) }
    ensures run { IsRunOf (run_rows starts.now.rows (differences before.now)) result.run }
    ensures rank { HasRank result.run rank }
{
    // That rows are below a count of 32 bits is known of the count.
    let _count = starts.num_docs();
    let at = run_near(before, starts.num_non_nulls(), number, rank);
    NumberedRun {
        run: run_at(starts, before, at),
        next: u64::from(at) + 1,
    }
}

/// The run with a number: its first row, and how many rows it has.
pub(crate) fn lent_run(starts: &RunStarts, before: &[u32], at: RowId) -> (RowId, RowId)
    requires summed { AreSummedRuns starts.now before.now }
    requires at { at < length (runs_of (run_rows starts.now.rows (differences before.now))) }
    ensures { slice_get (runs_of (run_rows starts.now.rows (differences before.now))) at
        ≡ Some result }
{
    let run = run_at(starts, before, at);
    (run.start, run.len)
}

// The number of the run with the row of a rank, which is looked for at a number first.
#[inline(always)]
fn run_near(before: &[u32], count: u32, number: u64, rank: RowId) -> u32
    requires some { 0 < count }
    requires long { length before.now ≡ count + 1 }
    requires first { slice_index before.now 0 ≤ rank }
    requires last { rank < slice_index before.now count }
    ensures within { result < count }
    ensures from { slice_index before.now result ≤ rank }
    ensures upto { rank < slice_index before.now (result + 1) }
{
    if number < u64::from(count) {
        let at = number as usize;
        if before[at] <= rank && rank < before[at + 1] {
            return number as u32;
        }
    }
    run_with(before, count, rank)
}

/// The run with a number.
#[inline(always)]
pub(crate) fn run_at(starts: &RunStarts, before: &[u32], number: u32) -> Run
    requires summed { AreSummedRuns starts.now before.now }
    requires number { number < length starts.now.rows }
    ensures start { slice_index starts.now.rows number ≡ result.start }
    ensures before { slice_index before.now number ≡ result.before }
    ensures end { slice_index before.now (number + 1) ≡ result.before + result.len }
{
    let sum = before[number as usize];
    Run {
        start: starts.select(number),
        len: before[number as usize + 1] - sum,
        before: sum,
    }
}
