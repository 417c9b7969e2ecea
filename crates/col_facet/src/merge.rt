//! Sums of facets.
ghost use Rattle.std.specs.Prelude.{◌≡◌, ◌+◌, ◌<◌, ◌≤◌, true, ◌∷◌, [], ◌++◌, drop, length, IfOk, IfErr, OnOk};
ghost use Rattle.col_common.specs.declared.error.ColumnarError.TheVariants as refusals;
ghost use Rattle.col_facet.specs.Facets.{totals_of, are_ascending, are_counted, RefusesSums, TotalsAreSums, TotalsOfAllAreSums};

use crate::facet_cell::{FacetCell, FacetCount};
use crate::totals::{is_ascending, totals};
use col_common::ColumnarError;
use std::alloc::{AllocError, Global};
use std::cmp::Ordering;

/// For each cell the sum of its counts in both lists, ascending. It answers TooLarge where 64 bits
/// don't count a cell. Lists that ascend are merged as they stand; one that doesn't is first put in
/// order, with the counts of each cell summed.
pub fn merge_facets(
    alloc: Global,
    left: &[FacetCount],
    right: &[FacetCount],
) -> Result<Vec<FacetCount>, ColumnarError>
    ensures ok { IfOk result (λ sums. sums.items ≡ totals_of (left.now ++ right.now)) }
    ensures ascending { IfOk result (λ sums. are_ascending sums.items ≡ true) }
    ensures counted { OnOk result (are_counted (totals_of (left.now ++ right.now)) ≡ true) }
    ensures err { IfErr result (λ e. RefusesSums e (totals_of (left.now ++ right.now))) }
{
    if is_ascending(left) {
        return merge_any_right(alloc, left, right);
    }
    let left = totals(alloc, left)?;
    merge_any_right(alloc, &left, right)
}

/// Totals of facets of columns, all of addresses or none, are the sums of the counts that these
/// facets are of.
pub fn totals_are_sums_of_counts()
    ensures two { TotalsAreSums }
    ensures any { TotalsOfAllAreSums }
{}

// Merges lists of which the left one ascends.
fn merge_any_right(
    alloc: Global,
    left: &[FacetCount],
    right: &[FacetCount],
) -> Result<Vec<FacetCount>, ColumnarError>
    requires left { are_ascending left.now ≡ true }
    ensures ok { IfOk result (λ sums. sums.items ≡ totals_of (left.now ++ right.now)) }
    ensures counted { OnOk result (are_counted (totals_of (left.now ++ right.now)) ≡ true) }
    ensures err { IfErr result (λ e. RefusesSums e (totals_of (left.now ++ right.now))) }
{
    if is_ascending(right) {
        return merge_ascending(alloc, left, right);
    }
    let right = totals(alloc, right)?;
    merge_ascending(alloc, left, &right)
}

// Merges lists that ascend.
fn merge_ascending(
    alloc: Global,
    left: &[FacetCount],
    right: &[FacetCount],
) -> Result<Vec<FacetCount>, ColumnarError>
    requires left { are_ascending left.now ≡ true }
    requires right { are_ascending right.now ≡ true }
    ensures ok { IfOk result (λ sums. sums.items ≡ totals_of (left.now ++ right.now)) }
    ensures counted { OnOk result (are_counted (totals_of (left.now ++ right.now)) ≡ true) }
    ensures err { IfErr result (λ e. RefusesSums e (totals_of (left.now ++ right.now))) }
{
    let mut sums = Vec::new(alloc);
    let mut i = 0;
    let mut j = 0;
    while i < left.len() && j < right.len() {
        let (from_left, from_right) = push_next(alloc, &left[i..], &right[j..], &mut sums)?;
        i += from_left;
        j += from_right;
    }
    push_all(alloc, &left[i..], &mut sums)?;
    push_all(alloc, &right[j..], &mut sums)?;
    Ok(sums)
}

// Adds the count of the least cell, and says of how many counts of each list it is.
fn push_next(
    alloc: Global,
    left: &[FacetCount],
    right: &[FacetCount],
    sums: &mut Vec<FacetCount>,
) -> Result<(usize, usize), ColumnarError>
    requires some_left { 0 < length left.now }
    requires some_right { 0 < length right.now }
    requires left { are_ascending left.now ≡ true }
    requires right { are_ascending right.now ≡ true }
    ensures next { IfOk result (λ n. sums.new.items
        ++ totals_of (drop n.0 left.now ++ drop n.1 right.now)
        ≡ sums.old.items ++ totals_of (left.now ++ right.now)) }
    ensures moves { IfOk result (λ n. 0 < n.0 + n.1) }
    ensures at_most_one { IfOk result (λ n. (n.0 ≤ 1) × (n.1 ≤ 1)) }
    ensures counted { are_counted sums.old.items ≡ true
        → OnOk result (are_counted sums.new.items ≡ true) }
    ensures err { IfErr result (λ e. RefusesSums e (totals_of (left.now ++ right.now))) }
{
    let first = &left[0];
    let other = &right[0];
    match first.cell.cmp(&other.cell) {
        Ordering::Less => {
            push_count(alloc, &first.cell, first.count, sums)?;
            Ok((1, 0))
        }
        Ordering::Greater => {
            push_count(alloc, &other.cell, other.count, sums)?;
            Ok((0, 1))
        }
        Ordering::Equal => {
            let Some(count) = first.count.checked_add(other.count) else {
                return Err(ColumnarError::TooLarge);
            };
            push_count(alloc, &first.cell, count, sums)?;
            Ok((1, 1))
        }
    }
}

// Adds counts as they are.
fn push_all(
    alloc: Global,
    facets: &[FacetCount],
    sums: &mut Vec<FacetCount>,
) -> Result<(), AllocError>
    ensures ok { OnOk result (sums.new.items ≡ sums.old.items ++ facets.now) }
    ensures counted { are_counted sums.old.items ≡ true
        → OnOk result (are_counted sums.new.items ≡ true) }
{
    for facet in facets {
        push_count(alloc, &facet.cell, facet.count, sums)?;
    }
    Ok(())
}

/// Adds a cell with its count.
pub(crate) fn push_count(
    alloc: Global,
    cell: &FacetCell,
    count: u64,
    facets: &mut Vec<FacetCount>,
) -> Result<(), AllocError>
    ensures ok { OnOk result (facets.new.items
        ≡ facets.old.items ++ record { cell = cell.now; count = count } ∷ []) }
    ensures counted { are_counted facets.old.items ≡ true
        → OnOk result (are_counted facets.new.items ≡ true) }
{
    let cell = cell.try_clone(alloc)?;
    facets.push(FacetCount { cell, count })?;
    Ok(())
}
