//! Totals of counts in any order.
ghost use Rattle.std.specs.Prelude.{◌≡◌, true, IfOk, IfErr};
ghost use Rattle.std.specs.List.Sorted.{IsPermutation};
ghost use Rattle.col_facet.specs.Facets.{totals_of, are_ascending, RefusesSums};
ghost use Rattle.col_facet.specs.Listed.{listed_counts, are_in_order, begins_apart};

use crate::facet_cell::{FacetCell, FacetCount};
use crate::merge::push_count;
use col_common::ColumnarError;
use std::alloc::{AllocError, Global};

// A cell with its count, so that the lesser cells stand first.
type Listed<'a> = (&'a FacetCell, u64);

/// Says whether each cell stands before the next.
pub(crate) fn is_ascending(facets: &[FacetCount]) -> bool
    ensures { result ≡ are_ascending facets.now }
{
    let mut i = 0;
    while i + 1 < facets.len() {
        if facets[i].cell >= facets[i + 1].cell {
            return false;
        }
        i += 1;
    }
    true
}

/// Each cell once, ascending, with its counts summed. It answers TooLarge where 64 bits don't count
/// a cell.
pub(crate) fn totals(alloc: Global, facets: &[FacetCount]) -> Result<Vec<FacetCount>, ColumnarError>
    ensures ok { IfOk result (λ sums. sums.items ≡ totals_of facets.now) }
    ensures err { IfErr result (λ e. RefusesSums e (totals_of facets.now)) }
{
    let mut listed = listed_facets(alloc, facets)?;
    sort_listed(&mut listed);
    sum_runs(alloc, &listed)
}

// Facets, as they are sorted.
fn listed_facets<'a>(alloc: Global, facets: &'a [FacetCount]) -> Result<Vec<Listed<'a>>, AllocError>
    ensures { IfOk result (λ listed. listed_counts listed.items ≡ facets.now) }
{
    let mut listed = Vec::with_capacity(alloc, facets.len())?;
    for facet in facets {
        listed.push((&facet.cell, facet.count))?;
    }
    Ok(listed)
}

// Puts the lesser cells first.
fn sort_listed(listed: &mut Vec<Listed<'_>>)
    ensures moved { IsPermutation listed.old.items listed.new.items }
    ensures sorted { are_in_order (listed_counts listed.new.items) ≡ true }
{
    listed.sort_unstable();
}

// Sums up the counts of each cell, where those of one cell stand together.
fn sum_runs(alloc: Global, listed: &[Listed<'_>]) -> Result<Vec<FacetCount>, ColumnarError>
    requires { are_in_order (listed_counts listed.now) ≡ true }
    ensures ok { IfOk result (λ sums. sums.items ≡ totals_of (listed_counts listed.now)) }
    ensures err { IfErr result (λ e. RefusesSums e (totals_of (listed_counts listed.now))) }
{
    let mut sums = Vec::new(alloc);
    let mut so_far: u64 = 0;
    let mut i = 0;
    while i < listed.len() {
        let (cell, count) = &listed[i];
        let Some(sum) = so_far.checked_add(*count) else {
            return Err(ColumnarError::TooLarge);
        };
        i += 1;
        if is_last(cell, &listed[i..]) {
            push_count(alloc, cell, sum, &mut sums)?;
            so_far = 0;
        } else {
            so_far = sum;
        }
    }
    Ok(sums)
}

// Says whether no count of the cell comes next.
fn is_last(cell: &FacetCell, next: &[Listed<'_>]) -> bool
    ensures { result ≡ begins_apart cell.now (listed_counts next.now) }
{
    match next.first() {
        Some((other, _)) => *cell != **other,
        None => true,
    }
}
