//! The rows of an index, one after another.
ghost use Rattle.std.specs.Prelude.{◌≡◌};
ghost use Rattle.col_common.specs.Ascending.{differences};
ghost use Rattle.col_model.specs.Positions.{rows_with_value};

use crate::listed_rows::ListedRows;
use crate::multivalued_index_v1::MultiValueIndexV1;
use crate::row_by_row::RowByRow;
use crate::row_runs::RowRuns;
use crate::walked_rows::WalkedRows;
use col_common::{DocId, Iterable, Walk};
use std::marker::Model;

/// The rows with a value, ascending; `place` of a walk is the rank of the next, and `inner` a row
/// from which on the next is looked for. Up to the rank `sum` the rows follow one another, and
/// `segment` is the run that is looked at first behind them. Contracts see the rows.
#[derive(Drop)]
pub struct NonNullDocs<'a> {
    rows: WalkedRows<'a>,
}

impl<'a> Model for NonNullDocs<'a> {
    ghost use Rattle.std.specs.Prelude.{List, ℕ};
    ghost use Rattle.col_index.specs.Walked.{rows_walked};

    ghost Value = { List ℕ };

    ghost view = { λ d. rows_walked d.rows };
}

impl<'a> NonNullDocs<'a> {
    /// The rows of a list.
    #[inline(always)]
    pub(crate) fn of_listed(rows: &'a ListedRows) -> NonNullDocs<'a>
        ensures { result ≡ rows.now.rows }
    {
        NonNullDocs {
            rows: WalkedRows::OfListed(rows),
        }
    }

    /// The rows of runs.
    #[inline(always)]
    pub(crate) fn of_runs(runs: &'a RowRuns) -> NonNullDocs<'a>
        ensures { result ≡ runs.now.rows }
    {
        NonNullDocs {
            rows: WalkedRows::OfRuns(runs),
        }
    }

    /// The rows of an index of version 1.
    pub(crate) fn of_offsets(index: &'a MultiValueIndexV1) -> NonNullDocs<'a>
        ensures { result ≡ rows_with_value (differences index.now) }
    {
        NonNullDocs {
            rows: WalkedRows::OfOffsets(index),
        }
    }
}

impl Iterable<DocId> for NonNullDocs<'_> {
    ghost use Rattle.std.specs.Prelude.{drop};
    ghost use Rattle.col_index.specs.Walked.{IsWalkOfRows};

    ghost items = { λ rows. rows };

    ghost stands = { λ rows w. IsWalkOfRows rows w };

    ghost left = { λ rows w. drop w.place rows };

    fn walk(&self) -> Walk {
        Walk::default()
    }

    #[inline(always)]
    fn next(&self, at: &mut Walk) -> Option<DocId> {
        match self.rows {
            WalkedRows::OfListed(rows) => RowByRow::Listed(rows).next_row(at),
            WalkedRows::OfOffsets(index) => RowByRow::ByOffsets(index).next_row(at),
            WalkedRows::OfRuns(runs) => runs.next_row(at),
        }
    }
}
