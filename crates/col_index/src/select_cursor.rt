//! The rows of an index by their ranks.
ghost use Rattle.std.specs.Prelude.{◌≡◌};

use crate::optional_index::OptionalIndex;
use crate::selected_runs::NumberedRun;
use crate::set::SelectCursor;
use col_common::RowId;
use std::marker::Model;

/// A reader of rows by their ranks, which remembers the run that the last one was found in.
/// Contracts see the rows.
#[derive(Drop)]
pub struct OptionalIndexSelectCursor<'a> {
    index: &'a OptionalIndex,
    near: NumberedRun,
}

impl<'a> Model for OptionalIndexSelectCursor<'a> {
    ghost use Rattle.std.specs.Prelude.{List, ℕ};
    ghost use Rattle.col_index.specs.RunPlaces.{IsRunOf};

    ghost Value = { List ℕ };

    ghost view = { λ c. c.index.now.rows };

    ghost invariant = { λ c. IsRunOf c.index.now.rows c.near.run };
}

impl<'a> OptionalIndexSelectCursor<'a> {
    /// A reader of the rows of an index.
    pub(crate) fn of(index: &'a OptionalIndex) -> OptionalIndexSelectCursor<'a>
        ensures { result ≡ index.now.rows }
    {
        OptionalIndexSelectCursor {
            index,
            near: NumberedRun::none(),
        }
    }
}

impl SelectCursor<RowId> for OptionalIndexSelectCursor<'_> {
    ghost use Rattle.std.specs.Prelude.{◌<◌, length, slice_get};

    ghost at_rank = { λ rows k. slice_get rows k };

    ghost IsRank = { λ rows k. k < length rows };

    #[inline(always)]
    fn select(&mut self, rank: RowId) -> RowId {
        self.index.select_near(&mut self.near, rank)
    }
}
