//! The most frequent cells.
ghost use Rattle.std.specs.Prelude.{◌≡◌, ◌≤◌, true, [], ◌∷◌, ◌++◌, take, length, IfOk, OnOk};
ghost use Rattle.col_facet.specs.Facets.{top_of};
ghost use Rattle.std.specs.List.Sorted.{IsPermutation, IsSorted};
ghost use Rattle.std.specs.List.{prefix_len};
ghost use Rattle.std.specs.Ordering.{is_lt};
ghost use Rattle.col_model.specs.Sorted.{inserted};
ghost use Rattle.col_facet.specs.Ranked.{ranked_counts, ranked_count, ranked_cmp, in_rank, AreRanked};

use crate::facet_cell::{FacetCell, FacetCount};
use crate::merge::push_count;
use std::alloc::{AllocError, Global};
use std::cmp::Reverse;

// So few are kept in order while facets are walked; where more are wanted, all are sorted.
const FEW: usize = 64;

// A cell behind its count, so that the greater counts stand first.
type Ranked<'a> = (Reverse<u64>, &'a FacetCell);

/// The first so many cells by falling count, then by cell.
pub fn top_facets(
    alloc: Global,
    facets: &[FacetCount],
    k: usize,
) -> Result<Vec<FacetCount>, AllocError>
    ensures { IfOk result (λ top. top.items ≡ top_of k facets.now) }
{
    let ranked = top_ranked(alloc, facets, k)?;
    let mut top = Vec::new(alloc);
    for (count, cell) in &ranked {
        push_count(alloc, *cell, count.0, &mut top)?;
    }
    Ok(top)
}

// The first so many, as they are ranked.
fn top_ranked<'a>(
    alloc: Global,
    facets: &'a [FacetCount],
    k: usize,
) -> Result<Vec<Ranked<'a>>, AllocError>
    ensures { IfOk result (λ ranked. ranked_counts ranked.items ≡ top_of k facets.now) }
{
    if k <= FEW {
        return best_ranked(alloc, facets, k);
    }
    let mut ranked = ranked_facets(alloc, facets)?;
    sort_ranked(&mut ranked);
    ranked.truncate(k);
    Ok(ranked)
}

// The same, kept in order while facets are walked from the last to the first.
fn best_ranked<'a>(
    alloc: Global,
    facets: &'a [FacetCount],
    k: usize,
) -> Result<Vec<Ranked<'a>>, AllocError>
    ensures { IfOk result (λ best. ranked_counts best.items ≡ top_of k facets.now) }
{
    let mut best = Vec::new(alloc);
    let mut at = facets.len();
    while at > 0 {
        at -= 1;
        let facet = &facets[at];
        keep_best((Reverse(facet.count), &facet.cell), k, &mut best)?;
    }
    Ok(best)
}

// Puts one more into its place, and keeps so many.
fn keep_best<'a>(one: Ranked<'a>, k: usize, best: &mut Vec<Ranked<'a>>) -> Result<(), AllocError>
    requires { AreRanked (ranked_counts best.old.items) }
    ensures { OnOk result (ranked_counts best.new.items
        ≡ take k (inserted in_rank (ranked_count one.entry) (ranked_counts best.old.items))) }
{
    if best.len() >= k && is_behind(&one, best.as_slice()) {
        best.truncate(k);
        return Ok(());
    }
    let place = place_of(&one, best.as_slice());
    best.insert(place, one)?;
    best.truncate(k);
    Ok(())
}

// Whether the last of these ranks before it.
fn is_behind(one: &Ranked<'_>, best: &[Ranked<'_>]) -> bool
    requires { AreRanked (ranked_counts best.now) }
    ensures { result ≡ true → inserted in_rank (ranked_count one.now) (ranked_counts best.now)
        ≡ ranked_counts best.now ++ ranked_count one.now ∷ [] }
{
    if best.is_empty() {
        return true;
    }
    best[best.len() - 1].cmp(one).is_lt()
}

// How many at the front rank before it.
fn place_of(one: &Ranked<'_>, best: &[Ranked<'_>]) -> usize
    ensures before { result ≡ prefix_len (λ v. is_lt (ranked_cmp v one.now)) best.now }
    ensures within { result ≤ length best.now }
{
    best.iter()
        .take_while(|other| other.cmp(&one).is_lt())
        .count()
}

// Facets, as they are ranked.
fn ranked_facets<'a>(alloc: Global, facets: &'a [FacetCount]) -> Result<Vec<Ranked<'a>>, AllocError>
    ensures { IfOk result (λ ranked. ranked_counts ranked.items ≡ facets.now) }
{
    let mut ranked = Vec::with_capacity(alloc, facets.len())?;
    for facet in facets {
        ranked.push((Reverse(facet.count), &facet.cell))?;
    }
    Ok(ranked)
}

// Puts the greater counts first, and of equal ones the lesser cells.
fn sort_ranked(ranked: &mut Vec<Ranked<'_>>)
    ensures moved { IsPermutation ranked.old.items ranked.new.items }
    ensures sorted { IsSorted ranked_cmp ranked.new.items }
{
    ranked.sort_unstable();
}
