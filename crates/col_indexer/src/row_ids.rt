//! Lists of rows, from anywhere.

use crate::{ShuffledRowIds, StackedRowIds};
use col_common::{Iterable, RowId, Walk};
use col_index::OptionalIndex;

/// Rows that rise: a list, those of an index, or merged ones.
#[derive(Drop)]
pub enum RowIds<'a> {
    Slice(&'a [RowId]),
    Index(&'a OptionalIndex),
    Stacked(StackedRowIds<'a>),
    Shuffled(ShuffledRowIds<'a>),
}

impl Iterable<RowId> for RowIds<'_> {
    ghost use Rattle.col_indexer.specs.RowViews.{rows_of, RowsStand, rows_to_give};

    ghost items = { rows_of };

    ghost stands = { RowsStand };

    ghost left = { rows_to_give };

    fn walk(&self) -> Walk {
        match self {
            RowIds::Slice(rows) => rows.walk(),
            RowIds::Index(index) => index.iter_non_null_docs().walk(),
            RowIds::Stacked(rows) => rows.walk(),
            RowIds::Shuffled(rows) => rows.walk(),
        }
    }

    #[inline]
    fn next(&self, at: &mut Walk) -> Option<RowId> {
        match self {
            RowIds::Slice(rows) => rows.next(at),
            RowIds::Index(index) => index.iter_non_null_docs().next(at),
            RowIds::Stacked(rows) => rows.next(at),
            RowIds::Shuffled(rows) => rows.next(at),
        }
    }
}
