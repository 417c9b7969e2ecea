//! Cells as facets have them, and how often they stand.
ghost use Rattle.std.specs.Prelude.{◌≡◌, Some, refl, IfOk};
ghost use Rattle.std.specs.Cmp.{partial_equiv_from_equiv, partial_order_from_agreeing_total};
ghost use Rattle.std.specs.Ordering.{eq_by_cmp};
ghost use Rattle.std.proofs.lemmas.Cmp.{eq_by_cmp_equiv};
ghost use Rattle.col_facet.specs.Cells.{cell_cmp, cells_total};

use col_dynamic::TermBytes;
use std::alloc::{AllocError, Global};
use std::cmp::Ordering;

/// A cell: numbers before addresses before terms.
#[derive(Drop)]
pub enum FacetCell {
    /// A number, or a time in nanoseconds; 0 or 1 for a flag.
    Num(i128),
    /// An address.
    Addr(u128),
    /// A text or bytes.
    Term(TermBytes),
}

impl FacetCell {
    /// The same cell once more.
    pub fn try_clone(&self, alloc: Global) -> Result<FacetCell, AllocError>
        ensures { IfOk result (λ cell. cell ≡ self.now) }
    {
        match self {
            FacetCell::Num(number) => Ok(FacetCell::Num(*number)),
            FacetCell::Addr(address) => Ok(FacetCell::Addr(*address)),
            FacetCell::Term(term) => Ok(FacetCell::Term(term.try_clone(alloc)?)),
        }
    }

    // By kind, then by value.
    fn compare(&self, other: &FacetCell) -> Ordering
        ensures { result ≡ cell_cmp self.now other.now }
    {
        match self {
            FacetCell::Num(number) => match other {
                FacetCell::Num(other) => number.cmp(other),
                FacetCell::Addr(_) | FacetCell::Term(_) => Ordering::Less,
            },
            FacetCell::Addr(address) => match other {
                FacetCell::Num(_) => Ordering::Greater,
                FacetCell::Addr(other) => address.cmp(other),
                FacetCell::Term(_) => Ordering::Less,
            },
            FacetCell::Term(term) => match other {
                FacetCell::Num(_) | FacetCell::Addr(_) => Ordering::Greater,
                FacetCell::Term(other) => term.cmp(other),
            },
        }
    }
}

impl PartialEq for FacetCell {
    ghost eq = { eq_by_cmp cell_cmp };

    ghost laws = { partial_equiv_from_equiv (eq_by_cmp_equiv cells_total) };

    fn eq(&self, other: &FacetCell) -> bool {
        self.compare(other).is_eq()
    }
}

impl Eq for FacetCell {
    ghost laws = { eq_by_cmp_equiv cells_total };
}

impl PartialOrd for FacetCell {
    ghost partial_cmp = { λ a b. Some (cell_cmp a b) };

    ghost laws = { partial_order_from_agreeing_total cell_cmp cells_total
        (λ a b. refl) (λ a b. refl) };

    fn partial_cmp(&self, other: &FacetCell) -> Option<Ordering> {
        Some(self.compare(other))
    }
}

impl Ord for FacetCell {
    ghost cmp = { cell_cmp };

    ghost total = { cells_total };

    ghost matches_partial_cmp = { λ a b. refl };

    ghost matches_eq = { λ a b. refl };

    fn cmp(&self, other: &FacetCell) -> Ordering {
        self.compare(other)
    }
}

/// A cell, and how often it stands.
#[derive(Drop)]
pub struct FacetCount {
    pub cell: FacetCell,
    pub count: u64,
}
