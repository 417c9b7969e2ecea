//! Ranks of rows that are asked one behind another.
ghost use Rattle.std.specs.Prelude.{◌≡◌, List, ℕ};
ghost use Rattle.col_common.specs.Reading.{only_if};
ghost use Rattle.col_model.specs.Positions.{rank};
ghost use Rattle.col_index.specs.Sets.{holds};

use crate::listed_rows::ListedRows;
use crate::optional_index::OptionalIndex;
use crate::row_runs::RowRuns;
use crate::run_places::RunPlace;
use crate::search::Place;
use col_common::{DocId, RowId};

/// Rows with a value, each asked from where the one before was found.
pub(crate) trait RankNear {
    /// Where a row was found.
    type Place: Copy;

    /// The rows with a value.
    ghost rows: { Self → List ℕ };

    /// It is a place of these rows.
    ghost IsPlace: { Self → Self.Place → Type 0 };

    /// The place of row 0.
    fn first_place(&self) -> Self::Place
        ensures { IsPlace self.now result };

    /// The rank of a row that has a value; in few steps where the row isn't far behind the place.
    fn rank_near(&self, place: &mut Self::Place, doc_id: DocId) -> Option<RowId>
        requires { IsPlace self.now place.old }
        ensures place { IsPlace self.now place.new }
        ensures rank { result
            ≡ only_if (holds (rows self.now) doc_id) (rank (rows self.now) doc_id) };
}

/// Rows in a list that are walked.
#[derive(Clone, Copy)]
pub(crate) struct Walked<'a> {
    pub rows: &'a ListedRows,
}

impl RankNear for Walked<'_> {
    ghost use Rattle.col_index.specs.Places.{IsPlaceOfTarget};

    type Place = Place;

    ghost rows = { λ w. w.rows.now.rows };

    ghost IsPlace = { λ w place. IsPlaceOfTarget w.rows.now.rows place };

    #[inline(always)]
    fn first_place(&self) -> Place {
        self.rows.first_place()
    }

    #[inline(always)]
    fn rank_near(&self, place: &mut Place, doc_id: DocId) -> Option<RowId> {
        self.rows.walked_rank(place, doc_id)
    }
}

/// Rows of an index that are ranked each by itself.
#[derive(Clone, Copy)]
pub(crate) struct Ranked<'a> {
    pub index: &'a OptionalIndex,
}

impl RankNear for Ranked<'_> {
    type Place = ();

    ghost rows = { λ r. r.index.now.rows };

    ghost IsPlace = { λ r place. Unit {0} };

    #[inline(always)]
    fn first_place(&self) {}

    #[inline(always)]
    fn rank_near(&self, _place: &mut (), doc_id: DocId) -> Option<RowId> {
        self.index.rank_by_bits(doc_id)
    }
}

/// Rows in runs that are walked.
#[derive(Clone, Copy)]
pub(crate) struct InRuns<'a> {
    pub runs: &'a RowRuns,
}

impl RankNear for InRuns<'_> {
    ghost use Rattle.col_index.specs.RunPlaces.{IsRunPlace};

    type Place = RunPlace;

    ghost rows = { λ r. r.runs.now.rows };

    ghost IsPlace = { λ r place. IsRunPlace r.runs.now.rows place };

    #[inline(always)]
    fn first_place(&self) -> RunPlace {
        self.runs.first_place()
    }

    #[inline(always)]
    fn rank_near(&self, place: &mut RunPlace, doc_id: DocId) -> Option<RowId> {
        self.runs.rank_near(place, doc_id)
    }
}
