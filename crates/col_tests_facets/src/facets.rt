//! Facets of columns, by examples.

use col_common::ColumnarError;
use col_facet::{FacetCell, FacetCount, merge_facets, top_facets};
use std::alloc::Global;
use std::process::Abort;
use std::test::Fail;

fn is_number(cell: &FacetCell, number: i128) -> bool {
    match cell {
        FacetCell::Num(own) => *own == number,
        _ => false,
    }
}

// Whether the facets are these numbers with their counts.
fn are_numbers(facets: &[FacetCount], expected: &[(i128, u64)]) -> bool {
    if facets.len() != expected.len() {
        return false;
    }
    for at in 0..expected.len() {
        let (number, count) = expected[at];
        if facets[at].count != count {
            return false;
        }
        if !is_number(&facets[at].cell, number) {
            return false;
        }
    }
    true
}

fn one_number(number: i128, count: u64) -> FacetCount {
    FacetCount {
        cell: FacetCell::Num(number),
        count,
    }
}

// The sums of the counts of 1 and 3 and of a count of 1.
fn sums_with(alloc: Global, count: u64) -> Result<Vec<FacetCount>, ColumnarError> {
    let left = [one_number(1, 2), one_number(3, 1)];
    merge_facets(alloc, &left, &[one_number(1, count)])
}

fn assert_top(rt: &impl Abort, alloc: Global, sums: &[FacetCount]) -> Result<(), Fail> {
    assert!(rt; are_numbers(sums, &[(1, 7), (3, 1)]));
    let top = top_facets(alloc, sums, 1)?;
    assert!(rt; are_numbers(top.as_slice(), &[(1, 7)]));
    Ok(())
}

#[test]
fn counts_of_one_cell_are_summed(rt: HostRuntime) -> Result<(), Fail> {
    let sums = sums_with(rt.alloc(), 5)?;
    assert_top(&rt, rt.alloc(), sums.as_slice())
}

#[test]
fn counts_in_any_order_are_summed(rt: HostRuntime) -> Result<(), Fail> {
    let left = [one_number(3, 1), one_number(1, 1), one_number(1, 1)];
    let sums = merge_facets(rt.alloc(), &left, &[one_number(1, 5)])?;
    assert_top(&rt, rt.alloc(), sums.as_slice())
}

#[test]
fn sums_past_64_bits_are_refused(rt: HostRuntime) {
    let sums = sums_with(rt.alloc(), u64::MAX);
    assert!(rt; matches!(sums, Err(ColumnarError::TooLarge)));
}
