//! Cells by values: terms by ordinals, numbers by how far they stand above a least one.
ghost use Rattle.std.specs.Prelude.{◌≡◌, ℕ, pos, ◌+◌, ◌+ℤ◌, IfOk};
ghost use Rattle.col_model.specs.Codes.{bool_code};
ghost use Rattle.col_facet.specs.Tables.{term_at};
ghost use Rattle.col_facet.specs.declared.facet_cell.FacetCell.{FacetCell};
ghost use Rattle.col_facet.specs.declared.facet_cell.FacetCell.TheVariants as cells;

use crate::facet_cell::FacetCell;
use crate::facet_value::FacetValue;
use col_common::DateTime;
use col_dynamic::TermBytes;
use col_terms::Dictionary;
use std::alloc::{AllocError, Global};

/// A cell for each place, or for each value of another type.
pub(crate) trait PlaceCells<T> {
    /// The cells.
    ghost cells: { Self → T → FacetCell };

    /// The cell of a place.
    fn cell_at(&self, alloc: Global, place: T) -> Result<FacetCell, AllocError>
        ensures { IfOk result (λ cell. cell ≡ cells self.now place) };
}

/// The cells that values stand for by themselves.
#[derive(Drop)]
pub(crate) struct OwnCells;

impl<T: FacetValue> PlaceCells<T> for OwnCells {
    ghost cells = { λ _ value. T.cell value };

    #[inline(always)]
    fn cell_at(&self, _alloc: Global, value: T) -> Result<FacetCell, AllocError> {
        Ok(value.to_cell())
    }
}

impl PlaceCells<u64> for Dictionary {
    ghost cells = { term_at };

    fn cell_at(&self, alloc: Global, place: u64) -> Result<FacetCell, AllocError> {
        let term = match self.term_at(place) {
            Some(term) => term,
            None => &[],
        };
        Ok(FacetCell::Term(TermBytes::from_vec(Vec::from_slice(alloc, term)?)))
    }
}

impl PlaceCells<u64> for u64 {
    ghost cells = { λ least n. cells.Num (pos (least + n)) };

    fn cell_at(&self, _alloc: Global, place: u64) -> Result<FacetCell, AllocError> {
        Ok(FacetCell::Num(i128::from(*self) + i128::from(place)))
    }
}

impl PlaceCells<u64> for bool {
    ghost cells = { λ least n. cells.Num (pos (bool_code least + n)) };

    fn cell_at(&self, alloc: Global, place: u64) -> Result<FacetCell, AllocError> {
        u64::from(*self).cell_at(alloc, place)
    }
}

impl PlaceCells<u64> for i64 {
    ghost cells = { λ least n. cells.Num (least +ℤ pos n) };

    fn cell_at(&self, _alloc: Global, place: u64) -> Result<FacetCell, AllocError> {
        Ok(FacetCell::Num(i128::from(*self) + i128::from(place)))
    }
}

impl PlaceCells<u64> for DateTime {
    ghost cells = { λ least n. cells.Num (least +ℤ pos n) };

    fn cell_at(&self, alloc: Global, place: u64) -> Result<FacetCell, AllocError> {
        self.into_timestamp_nanos().cell_at(alloc, place)
    }
}
