//! Ranks of documents of which neighbours stand in one run.
ghost use Rattle.std.specs.Prelude.{◌≡◌, ◌≤◌, ◌<◌, ◌+◌, ◌^◌, ◌++◌, drop, length, map, take};
ghost use Rattle.col_index.specs.Appending.{PushesBoth};
ghost use Rattle.col_index.specs.RunPlaces.{AreRowsOf, rank_in};
ghost use Rattle.col_index.specs.Sets.{held, held_ranks};

use crate::row_runs::RowRuns;
use crate::run_places::Run;
use col_common::{DocId, RowId};
use std::alloc::AllocError;

/// Appends those of the documents that are rows of runs, and their ranks, as far as memory reaches:
/// those that follow one another in one run together.
pub(crate) fn push_ranks_in_runs(
    runs: &RowRuns,
    docs: &[DocId],
    docs_out: &mut Vec<DocId>,
    rows_out: &mut Vec<RowId>,
) -> Result<(), AllocError>
    ensures { PushesBoth docs_out.old.items docs_out.new.items
        rows_out.old.items rows_out.new.items result
        (held runs.now.rows docs.now) (held_ranks runs.now.rows docs.now) }
{
    let mut place = runs.first_place();
    let mut from = 0;
    for at in 0..docs.len() {
        let doc = docs[at];
        if place.run.has_row(doc) {
            continue;
        }
        push_rows_of(place.run, &docs[from..at], docs_out, rows_out)?;
        runs.seek(&mut place, doc);
        if place.run.has_row(doc) {
            from = at;
            continue;
        }
        from = at + 1;
    }
    push_rows_of(place.run, &docs[from..docs.len()], docs_out, rows_out)
}

// Appends rows of a run, and their ranks, as far as memory reaches.
#[inline(always)]
fn push_rows_of(
    run: Run,
    docs: &[DocId],
    docs_out: &mut Vec<DocId>,
    rows_out: &mut Vec<RowId>,
) -> Result<(), AllocError>
    requires fits { run.before + run.len < 2 ^ 32 }
    requires rows { AreRowsOf docs.now run }
    ensures { PushesBoth docs_out.old.items docs_out.new.items
        rows_out.old.items rows_out.new.items result docs.now (map (rank_in run) docs.now) }
{
    if docs.is_empty() {
        return Ok(());
    }
    push_some_of(run, docs, docs_out, rows_out)
}

// The same out of line.
#[inline(never)]
fn push_some_of(
    run: Run,
    docs: &[DocId],
    docs_out: &mut Vec<DocId>,
    rows_out: &mut Vec<RowId>,
) -> Result<(), AllocError>
    requires fits { run.before + run.len < 2 ^ 32 }
    requires rows { AreRowsOf docs.now run }
    ensures { PushesBoth docs_out.old.items docs_out.new.items
        rows_out.old.items rows_out.new.items result docs.now (map (rank_in run) docs.now) }
{
    docs_out.extend_from_slice(docs)?;
    let from = rows_out.len();
    rows_out.extend_from_slice(docs)?;
    rank_rows(run, rows_out.as_mut_slice(), from);
    Ok(())
}

// Puts its rank in the place of each row of a run from a place on.
fn rank_rows(run: Run, rows: &mut [RowId], from: usize)
    requires fits { run.before + run.len < 2 ^ 32 }
    requires within { from ≤ length rows.old }
    requires rows { AreRowsOf (drop from rows.old) run }
    ensures { rows.new ≡ take from rows.old ++ map (rank_in run) (drop from rows.old) }
{
    for at in from..rows.len() {
        rows[at] = run.before + (rows[at] - run.start);
    }
}
