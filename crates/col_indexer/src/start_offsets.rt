//! Lists of start offsets, from anywhere.
ghost use Rattle.std.specs.Prelude.{drop};
ghost use Rattle.col_common.specs.Walks.{IsNext};
ghost use Rattle.col_model.specs.Positions.{starts_of};
ghost use Rattle.col_index.specs.MultiValues.{value_counts_of};
ghost use Rattle.col_indexer.specs.Stacks.{IsWalkOfStarts};

use crate::{ShuffledStartOffsets, StackedStartOffsets};
use col_common::{DocId, Iterable, RowId, Walk};
use col_index::MultiValueIndex;

/// Start offsets: a list, those of an index, or merged ones.
#[derive(Drop)]
pub enum StartOffsets<'a> {
    Slice(&'a [RowId]),
    Index(&'a MultiValueIndex),
    Stacked(StackedStartOffsets<'a>),
    Shuffled(ShuffledStartOffsets<'a>),
}

impl Iterable<RowId> for StartOffsets<'_> {
    ghost use Rattle.col_indexer.specs.OffsetViews.{start_offsets_of, OffsetsStand, offsets_to_give};

    ghost items = { start_offsets_of };

    ghost stands = { OffsetsStand };

    ghost left = { offsets_to_give };

    fn walk(&self) -> Walk {
        match self {
            StartOffsets::Slice(starts) => starts.walk(),
            StartOffsets::Index(_) => Walk::default(),
            StartOffsets::Stacked(starts) => starts.walk(),
            StartOffsets::Shuffled(starts) => starts.walk(),
        }
    }

    #[inline]
    fn next(&self, at: &mut Walk) -> Option<RowId> {
        match self {
            StartOffsets::Slice(starts) => starts.next(at),
            StartOffsets::Index(index) => next_start(index, at),
            StartOffsets::Stacked(starts) => starts.next(at),
            StartOffsets::Shuffled(starts) => starts.next(at),
        }
    }
}

// The next start offset of an index, from a walk.
#[inline(always)]
fn next_start(index: &MultiValueIndex, at: &mut Walk) -> Option<RowId>
    requires { IsWalkOfStarts (value_counts_of index.now) at.old }
    ensures stands { IsWalkOfStarts (value_counts_of index.now) at.new }
    ensures value { let starts = starts_of (value_counts_of index.now) in
        IsNext (drop at.old.place starts) result (drop at.new.place starts) }
{
    if at.place == 0 {
        at.place = 1;
        return Some(0);
    }
    // That there are no more offsets than rows and one is known of the rows' number.
    let _num_docs = index.num_docs();
    match index.next_end(at.place - 1, at.inner as DocId) {
        Some((behind, end)) => {
            at.place += 1;
            at.inner = u64::from(behind);
            Some(end)
        }
        None => None,
    }
}
