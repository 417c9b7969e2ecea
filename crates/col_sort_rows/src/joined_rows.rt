//! Rows that were sorted, joined to those without a key.
ghost use Rattle.std.specs.Prelude.{◌≡◌, ◌++◌, ℕ, List, map, IfOk, OnOk};
ghost use Rattle.col_order.specs.Orders.{address_of};
ghost use Rattle.col_sort_rows.specs.Keys.{with_rest};

use col_common::RowAddr;
use std::alloc::{AllocError, Global};

/// Rows that were sorted.
pub(crate) trait SortedRows {
    /// Their addresses.
    ghost places: { Self → List (ℕ × ℕ) };

    /// How many rows there are.
    fn num_rows(&self) -> usize;

    /// Adds the rows.
    fn push_to(&self, rows: &mut Vec<RowAddr>) -> Result<(), AllocError>
        ensures { OnOk result
            (map address_of rows.new.items ≡ map address_of rows.old.items ++ places self.now) };
}

/// Rows as they stand, and the others in front, or behind where reversed.
pub(crate) fn joined_rows<S: SortedRows>(
    alloc: Global,
    sorted: &S,
    rest: Vec<RowAddr>,
    reversed: bool,
) -> Result<Vec<RowAddr>, AllocError>
    ensures { IfOk result (λ rows. map address_of rows.items
        ≡ with_rest reversed (S.places sorted.now) (map address_of rest.items)) }
{
    if reversed {
        let mut rows = Vec::new(alloc);
        rows.reserve(sorted.num_rows().saturating_add(rest.len()))?;
        sorted.push_to(&mut rows)?;
        rows.extend_from_slice(&rest)?;
        return Ok(rows);
    }
    let mut rows = rest;
    rows.reserve(sorted.num_rows())?;
    sorted.push_to(&mut rows)?;
    Ok(rows)
}
