//! Rows that are asked by their ranks, one behind another.
ghost use Rattle.std.specs.Prelude.{◌≡◌, ◌<◌, List, ℕ, length, map, slice_get, Some};
ghost use Rattle.col_common.specs.Ascending.{AreBelow};

use crate::rank_near::{InRuns, Walked};
use crate::selected_runs::NumberedRun;
use col_common::RowId;

/// Rows with a value, each asked by its rank from where the one before was found.
pub(crate) trait SelectNear {
    /// Where a row was found.
    type Near: Copy;

    /// The rows with a value.
    ghost rows: { Self → List ℕ };

    /// It is a place of these rows.
    ghost IsNear: { Self → Self.Near → Type 0 };

    /// A place in front of all rows.
    fn none_near(&self) -> Self::Near
        ensures { IsNear self.now result };

    /// The row with a rank.
    fn select_near(&self, near: &mut Self::Near, rank: RowId) -> RowId
        requires rank { rank < length (rows self.now) }
        requires near { IsNear self.now near.old }
        ensures near { IsNear self.now near.new }
        ensures row { slice_get (rows self.now) rank ≡ Some result };
}

impl SelectNear for Walked<'_> {
    type Near = ();

    ghost rows = { λ w. w.rows.now.rows };

    ghost IsNear = { λ w near. Unit {0} };

    #[inline(always)]
    fn none_near(&self) {}

    #[inline(always)]
    fn select_near(&self, _near: &mut (), rank: RowId) -> RowId {
        self.rows.select(rank)
    }
}

impl SelectNear for InRuns<'_> {
    ghost use Rattle.col_index.specs.RunPlaces.{IsRunOf};

    type Near = NumberedRun;

    ghost rows = { λ r. r.runs.now.rows };

    ghost IsNear = { λ r near. IsRunOf r.runs.now.rows near.run };

    #[inline(always)]
    fn none_near(&self) -> NumberedRun {
        NumberedRun::none()
    }

    #[inline(always)]
    fn select_near(&self, near: &mut NumberedRun, rank: RowId) -> RowId {
        self.runs.select_near(near, rank)
    }
}

/// Puts the row of each rank in its place.
#[inline(always)]
pub(crate) fn select_all<R: SelectNear>(rows: &R, ranks: &mut [RowId])
    requires { AreBelow (length (R.rows rows.now)) ranks.old }
    ensures { map Some ranks.new ≡ map (slice_get (R.rows rows.now)) ranks.old }
{
    let mut near = rows.none_near();
    for at in 0..ranks.len() {
        ranks[at] = rows.select_near(&mut near, ranks[at]);
    }
}
