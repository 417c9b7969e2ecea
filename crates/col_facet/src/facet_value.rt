//! Values of columns as cells of facets.
ghost use Rattle.std.specs.Prelude.{◌≡◌, pos};
ghost use Rattle.col_model.specs.Codes.{bool_code};
ghost use Rattle.col_facet.specs.Cells.{KeepsOrder};
ghost use Rattle.col_facet.specs.declared.facet_cell.FacetCell.{FacetCell};
ghost use Rattle.col_facet.specs.declared.facet_cell.FacetCell.TheVariants as cells;

use crate::facet_cell::FacetCell;
use col_common::{DateTime, Ipv6Addr};

/// A value that stands for a cell.
pub(crate) trait FacetValue: Ord + Copy {
    /// The cell.
    ghost cell: { Self → FacetCell };

    /// The cell.
    fn to_cell(self) -> FacetCell
        ensures { result ≡ cell self };

    /// That cells compare as their values.
    fn cells_keep_order()
        ensures { KeepsOrder Self.cmp cell };
}

impl FacetValue for bool {
    ghost cell = { λ b. cells.Num (pos (bool_code b)) };

    fn to_cell(self) -> FacetCell {
        FacetCell::Num(i128::from(u64::from(self)))
    }

    fn cells_keep_order() {}
}

impl FacetValue for i64 {
    ghost cell = { λ z. cells.Num z };

    fn to_cell(self) -> FacetCell {
        FacetCell::Num(i128::from(self))
    }

    fn cells_keep_order() {}
}

impl FacetValue for u64 {
    ghost cell = { λ n. cells.Num (pos n) };

    fn to_cell(self) -> FacetCell {
        FacetCell::Num(i128::from(self))
    }

    fn cells_keep_order() {}
}

impl FacetValue for DateTime {
    ghost cell = { λ z. cells.Num z };

    fn to_cell(self) -> FacetCell {
        FacetCell::Num(i128::from(self.into_timestamp_nanos()))
    }

    fn cells_keep_order() {}
}

impl FacetValue for Ipv6Addr {
    ghost cell = { λ n. cells.Addr n };

    fn to_cell(self) -> FacetCell {
        FacetCell::Addr(self.to_bits())
    }

    fn cells_keep_order() {}
}
