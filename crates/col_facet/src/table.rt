//! Tables of counts.
ghost use Rattle.std.specs.Prelude.{◌≡◌, ◌+◌, ◌<◌, ◌^◌, ◌==◌, ℕ, length, slice_index, count_by, [], ◌∷◌, ◌++◌, IfOk, OnOk, if◌then◌else◌};
ghost use Rattle.col_facet.specs.Tables.{counted_from};

use crate::facet_cell::FacetCount;
use crate::place_cells::PlaceCells;
use col_values::MonotonicallyMappableToU64;
use std::alloc::{AllocError, Global};

// So many places are few.
const FEW_PLACES: usize = 4096;

/// How many places a table for so many values may have: few, or twice as many.
pub(crate) fn places_of(num_values: usize) -> usize {
    num_values.saturating_mul(2).max(FEW_PLACES)
}

/// Counts values by their numbers, those from a base on, each at its place.
pub(crate) fn tally<T: MonotonicallyMappableToU64>(values: &[T], base: u64, counts: &mut [u64])
    requires { (i : ℕ) → slice_index counts.old i + length values.now < 2 ^ 64 }
    ensures { (i : ℕ) → i < length counts.old → slice_index counts.new i
        ≡ slice_index counts.old i + count_by (λ x. T.code x == base + i) values.now }
{
    if counts.len() == 2 && base < u64::MAX {
        // Where counts are few, each would wait for the one before it.
        counts[0] += count_equal(values, base);
        counts[1] += count_equal(values, base + 1);
        return;
    }
    tally_each(values, base, counts);
}

// How many values have this number.
fn count_equal<T: MonotonicallyMappableToU64>(values: &[T], number: u64) -> u64
    requires { length values.now < 2 ^ 64 }
    ensures { result ≡ count_by (λ x. T.code x == number) values.now }
{
    let mut count = 0;
    for value in values {
        count += u64::from(value.to_u64() == number);
    }
    count
}

// Counts values one by one.
fn tally_each<T: MonotonicallyMappableToU64>(values: &[T], base: u64, counts: &mut [u64])
    requires { (i : ℕ) → slice_index counts.old i + length values.now < 2 ^ 64 }
    ensures { (i : ℕ) → i < length counts.old → slice_index counts.new i
        ≡ slice_index counts.old i + count_by (λ x. T.code x == base + i) values.now }
{
    for value in values {
        count_number(value.to_u64(), base, counts);
    }
}

/// Counts a number, where it is one of those from a base on.
#[inline(always)]
pub(crate) fn count_number(number: u64, base: u64, counts: &mut [u64])
    requires { (i : ℕ) → slice_index counts.old i + 1 < 2 ^ 64 }
    ensures { (i : ℕ) → i < length counts.old → slice_index counts.new i
        ≡ slice_index counts.old i + (if number == base + i then 1 else 0) }
{
    let Some(place) = number.checked_sub(base) else {
        return;
    };
    if place >= counts.len() as u64 {
        return;
    }
    counts[place as usize] += 1;
}

/// How often each of so many places stands among these.
pub(crate) fn counts_of_places(
    alloc: Global,
    places: &[u64],
    len: usize,
) -> Result<Vec<u64>, AllocError>
    ensures len { IfOk result (λ counts. length counts.items ≡ len) }
    ensures counts { IfOk result (λ counts. (i : ℕ) → i < len → slice_index counts.items i
        ≡ count_by (λ x. x == 0 + i) places.now) }
{
    let mut counts = vec![in alloc; 0; len]?;
    tally(places, 0, counts.as_mut_slice());
    Ok(counts)
}

/// How often the cells of places stand, where they do, by a table of counts.
pub(crate) fn counted_facets<P: PlaceCells<u64>>(
    alloc: Global,
    places: &P,
    counts: &[u64],
) -> Result<Vec<FacetCount>, AllocError>
    ensures { IfOk result (λ facets. facets.items
        ≡ counted_from (P.cells places.now) 0 counts.now) }
{
    let mut facets = Vec::new(alloc);
    for (place, count) in counts.iter().enumerate() {
        push_counted(alloc, places, place as u64, *count, &mut facets)?;
    }
    Ok(facets)
}

// Adds the cell of a place with its count, where that isn't 0.
fn push_counted<P: PlaceCells<u64>>(
    alloc: Global,
    places: &P,
    place: u64,
    count: u64,
    facets: &mut Vec<FacetCount>,
) -> Result<(), AllocError>
    ensures { OnOk result (facets.new.items ≡ facets.old.items
        ++ (if count == 0 then [] else
        record { cell = P.cells places.now place; count = count } ∷ [])) }
{
    if count == 0 {
        return Ok(());
    }
    let cell = places.cell_at(alloc, place)?;
    facets.push(FacetCount { cell, count })?;
    Ok(())
}
