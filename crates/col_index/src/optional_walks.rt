//! Optional indexes, one row or document after another.
ghost use Rattle.std.specs.Prelude.{◌≡◌};
ghost use Rattle.col_index.specs.Appending.{AppendsBoth, PushesBoth};
ghost use Rattle.col_index.specs.Sets.{held, held_ranks};

use crate::appending::push_pair;
use crate::optional_index::OptionalIndex;
use crate::rank_near::{RankNear, Ranked, Walked};
use crate::rows_near::RowsNear;
use crate::run_ranks::push_ranks_in_runs;
use col_common::{DocId, RowId};
use std::alloc::AllocError;

impl OptionalIndex {
    /// Appends those of the documents that have a value, and their ranks. Documents that ascend are
    /// walked.
    pub fn rank_if_exists_batch(
        &self,
        docs: &[DocId],
        docs_out: &mut Vec<DocId>,
        rows_out: &mut Vec<RowId>,
    ) -> Result<(), AllocError>
        ensures { AppendsBoth docs_out.old.items docs_out.new.items
            rows_out.old.items rows_out.new.items result
            (held self.now.rows docs.now) (held_ranks self.now.rows docs.now) }
    {
        let num_docs = docs_out.len();
        let num_rows = rows_out.len();
        let result = self.push_ranks(docs, docs_out, rows_out);
        if result.is_err() {
            docs_out.truncate(num_docs);
            rows_out.truncate(num_rows);
        }
        result
    }

    /// Appends those of the documents that have a value, and their ranks, as far as memory reaches.
    pub(crate) fn push_ranks(
        &self,
        docs: &[DocId],
        docs_out: &mut Vec<DocId>,
        rows_out: &mut Vec<RowId>,
    ) -> Result<(), AllocError>
        ensures { PushesBoth docs_out.old.items docs_out.new.items
            rows_out.old.items rows_out.new.items result
            (held self.now.rows docs.now) (held_ranks self.now.rows docs.now) }
    {
        match self.rows_near() {
            RowsNear::Walked(rows) => push_ranks_by(&Walked { rows }, docs, docs_out, rows_out),
            RowsNear::Ranked(index) => push_ranks_by(&Ranked { index }, docs, docs_out, rows_out),
            RowsNear::InRuns(runs) => push_ranks_in_runs(runs, docs, docs_out, rows_out),
        }
    }
}

// Appends those of the documents that are rows with a value, and their ranks, as far as memory
// reaches.
#[inline(never)]
fn push_ranks_by<R: RankNear>(
    rows: &R,
    docs: &[DocId],
    docs_out: &mut Vec<DocId>,
    rows_out: &mut Vec<RowId>,
) -> Result<(), AllocError>
    ensures { PushesBoth docs_out.old.items docs_out.new.items
        rows_out.old.items rows_out.new.items result
        (held (R.rows rows.now) docs.now) (held_ranks (R.rows rows.now) docs.now) }
{
    let mut place = rows.first_place();
    for doc in docs {
        let doc = *doc;
        let Some(rank) = rows.rank_near(&mut place, doc) else {
            continue;
        };
        push_pair(docs_out, rows_out, doc, rank)?;
    }
    Ok(())
}
