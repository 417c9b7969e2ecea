//! Numbers of columns as cells of facets.
ghost use Rattle.col_facet.specs.Tables.{HasPlaces};

use crate::facet_value::FacetValue;
use crate::place_cells::PlaceCells;
use col_common::DateTime;
use col_values::MonotonicallyMappableToU64;

/// A value that stands for a cell by its number. Cells of places stand from a least value on.
pub(crate) trait FacetNumber: FacetValue + MonotonicallyMappableToU64 + PlaceCells<u64> {
    /// That each value from the least on has its cell at its place.
    fn cells_have_places()
        ensures { HasPlaces Self.partial_cmp Self.in_type Self.code Self.cell Self.cells };
}

impl FacetNumber for bool {
    #[tactic(auto, using(crate::proofs::NumberLemmas::bool_places))]
    fn cells_have_places() {}
}

impl FacetNumber for i64 {
    #[tactic(auto, using(crate::proofs::NumberLemmas::i64_places))]
    fn cells_have_places() {}
}

impl FacetNumber for u64 {
    #[tactic(auto, using(crate::proofs::NumberLemmas::u64_places))]
    fn cells_have_places() {}
}

impl FacetNumber for DateTime {
    #[tactic(auto, using(crate::proofs::NumberLemmas::i64_places))]
    fn cells_have_places() {}
}
