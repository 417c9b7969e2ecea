//! Runs of rows, in memory.
ghost use Rattle.std.specs.Prelude.{◌≡◌, ◌+◌, ◌-◌, ◌*◌, ◌<◌, ◌^◌, ℕ, nat_lt, List, [], length, sum, IfOk, OnOk};
ghost use Rattle.col_common.specs.Ascending.{AreBelow};
ghost use Rattle.col_model.specs.Index.{runs_of, run_starts, run_lengths};
ghost use Rattle.col_indexer.specs.Runs.{then_run, ends_at, IsRunAt};

use col_common::RowId;
use std::alloc::{AllocError, Global};
use std::marker::Model;

// Runs pay where they hold more rows than this each, on the average.
const ROWS_PER_RUN: u64 = 32;

/// Runs of rows. Contracts see the start and the length of each.
#[derive(Drop)]
pub(crate) struct Runs {
    starts: Vec<RowId>,
    lengths: Vec<RowId>,
}

impl Model for Runs {
    ghost use Rattle.std.specs.Prelude.{ℕ, List, zip};
    ghost use Rattle.col_indexer.specs.Runs.{AreRunLists};

    ghost Value = { List (ℕ × ℕ) };

    ghost view = { λ r. zip r.starts.items r.lengths.items };

    ghost invariant = { λ r. AreRunLists r.starts.items r.lengths.items };
}

impl Runs {
    /// No runs, with room for so many.
    pub(crate) fn with_capacity(alloc: Global, capacity: usize) -> Result<Runs, AllocError>
        ensures { IfOk result (λ r. r ≡ []) }
    {
        let starts = Vec::with_capacity(alloc, capacity)?;
        let lengths = Vec::with_capacity(alloc, capacity)?;
        Ok(Runs { starts, lengths })
    }

    /// The runs of rows, with room for so many.
    pub(crate) fn of_rows(
        alloc: Global,
        rows: &[RowId],
        capacity: usize,
    ) -> Result<Runs, AllocError>
        requires { AreBelow (2 ^ 32 - 1) rows.now }
        ensures { IfOk result (λ r. r ≡ runs_of rows.now) }
    {
        let mut runs = Runs::with_capacity(alloc, capacity)?;
        let mut at = 0;
        while at < rows.len() {
            let len = run_len(rows, at);
            runs.push_run(rows[at], len)?;
            at += len as usize;
        }
        Ok(runs)
    }

    /// How many runs there are.
    pub(crate) fn len(&self) -> usize
        ensures { result ≡ length self.now }
    {
        self.starts.len()
    }

    /// How many rows they hold.
    pub(crate) fn num_rows(&self) -> usize
        requires { sum (run_lengths self.now) < 2 ^ 32 }
        ensures { result ≡ sum (run_lengths self.now) }
    {
        sum_of(&self.lengths)
    }

    /// Where they start.
    pub(crate) fn starts(&self) -> &[RowId]
        ensures { result.now ≡ run_starts self.now }
    {
        &self.starts
    }

    /// How long they are.
    pub(crate) fn lengths(&self) -> &[RowId]
        ensures { result.now ≡ run_lengths self.now }
    {
        &self.lengths
    }

    /// Adds a run. One that begins where the last one ends makes that one longer.
    pub(crate) fn push_run(&mut self, start: RowId, len: RowId) -> Result<(), AllocError>
        requires { start + len < 2 ^ 32 }
        ensures { OnOk result (self.new ≡ then_run self.old (start, len)) }
    {
        if self.ends_at(start) {
            let last = self.lengths.len() - 1;
            self.lengths[last] += len;
            return Ok(());
        }
        self.starts.reserve(1)?;
        self.lengths.push(len)?;
        self.starts.push(start)?;
        Ok(())
    }

    // Whether the last run ends at a row.
    fn ends_at(&self, row: RowId) -> bool
        ensures { result ≡ ends_at self.now row }
    {
        let count = self.starts.len();
        if count == 0 {
            return false;
        }
        self.starts[count - 1] + self.lengths[count - 1] == row
    }
}

// What numbers come to.
fn sum_of(numbers: &[RowId]) -> usize
    requires { sum numbers.now < 2 ^ 32 }
    ensures { result ≡ sum numbers.now }
{
    let mut total = 0;
    for number in numbers {
        total += *number as usize;
    }
    total
}

// How many rows from a place on follow one another.
fn run_len(rows: &[RowId], at: usize) -> RowId
    requires place { at < length rows.now }
    requires below { AreBelow (2 ^ 32 - 1) rows.now }
    ensures { IsRunAt rows.now at result }
{
    let start = rows[at];
    let mut len: RowId = 1;
    while at + (len as usize) < rows.len() {
        if rows[at + len as usize] != start + len {
            return len;
        }
        len += 1;
    }
    len
}

/// How many runs rows stand in.
pub(crate) fn count_runs(rows: &[RowId]) -> usize
    requires { AreBelow (2 ^ 32 - 1) rows.now }
    ensures { result ≡ length (runs_of rows.now) }
{
    if rows.is_empty() {
        return 0;
    }
    let mut count = 1;
    for at in 1..rows.len() {
        count += (rows[at - 1] + 1 != rows[at]) as usize;
    }
    count
}

/// Whether so many rows are written as so many runs.
pub(crate) fn runs_pay(num_runs: usize, num_rows: usize) -> bool
    requires { num_runs < 2 ^ 32 }
    ensures { result ≡ nat_lt (32 * num_runs) num_rows }
{
    ROWS_PER_RUN * (num_runs as u64) < num_rows as u64
}
