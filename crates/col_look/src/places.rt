//! How many values lie in each of some ranges of one width.
ghost use Rattle.std.specs.Prelude.{◌≡◌, ◌+◌, ◌<◌, ◌^◌, ◌==◌, ℕ, length, slice_index, count_by, IfOk, OnOk, if◌then◌else◌};
ghost use Rattle.std.specs.List.{AllByRecursion};
ghost use Rattle.col_look.specs.Places.{IsAtPlace, place_of};

use crate::blocks::{new_block, read_block};
use col_values::{ColumnValues, MonotonicallyMappableToU64};
use std::alloc::{AllocError, Global};

/// How many values of a list lie in each of so many ranges of a width, from a base on.
pub(crate) fn counts_of_places<T, V>(
    alloc: Global,
    list: &V,
    base: u64,
    width: u64,
    len: usize,
) -> Result<Vec<u64>, AllocError>
where
    T: MonotonicallyMappableToU64,
    V: ColumnValues<T>,
    requires wide { 0 < width }
    requires placed { AllByRecursion (λ x. IsAtPlace base width len (T.code x))
        (V.values list.now) }
    ensures len { IfOk result (λ counts. length counts.items ≡ len) }
    ensures counts { IfOk result (λ counts. (i : ℕ) → i < len → slice_index counts.items i
        ≡ count_by (λ x. place_of base width (T.code x) == i) (V.values list.now)) }
{
    let mut counts = vec![in alloc; 0; len]?;
    count_places(alloc, list, base, width, counts.as_mut_slice())?;
    Ok(counts)
}

// Counts all values at their places, where none was counted yet.
fn count_places<T, V>(
    alloc: Global,
    list: &V,
    base: u64,
    width: u64,
    counts: &mut [u64],
) -> Result<(), AllocError>
where
    T: MonotonicallyMappableToU64,
    V: ColumnValues<T>,
    requires wide { 0 < width }
    requires placed { AllByRecursion (λ x. IsAtPlace base width (length counts.old) (T.code x))
        (V.values list.now) }
    requires none { (i : ℕ) → slice_index counts.old i ≡ 0 }
    ensures { OnOk result ((i : ℕ) → i < length counts.old → slice_index counts.new i
        ≡ count_by (λ x. place_of base width (T.code x) == i) (V.values list.now)) }
{
    let count = list.num_vals() as usize;
    let mut block = new_block(alloc, list)?;
    let mut at = 0;
    while at < count {
        let len = read_block(list, at, block.as_mut_slice());
        tally(&block[..len], base, width, counts);
        at += len;
    }
    Ok(())
}

// Counts values at their places.
fn tally<T: MonotonicallyMappableToU64>(values: &[T], base: u64, width: u64, counts: &mut [u64])
    requires wide { 0 < width }
    requires placed { AllByRecursion (λ x. IsAtPlace base width (length counts.old) (T.code x))
        values.now }
    requires few { (i : ℕ) → slice_index counts.old i + length values.now < 2 ^ 64 }
    ensures { (i : ℕ) → i < length counts.old → slice_index counts.new i
        ≡ slice_index counts.old i
        + count_by (λ x. place_of base width (T.code x) == i) values.now }
{
    for value in values {
        count_place(value.to_u64(), base, width, counts);
    }
}

// Counts a number at its place.
#[inline(always)]
fn count_place(number: u64, base: u64, width: u64, counts: &mut [u64])
    requires wide { 0 < width }
    requires placed { IsAtPlace base width (length counts.old) number }
    requires few { (i : ℕ) → slice_index counts.old i + 1 < 2 ^ 64 }
    ensures { (i : ℕ) → i < length counts.old → slice_index counts.new i
        ≡ slice_index counts.old i + (if place_of base width number == i then 1 else 0) }
{
    counts[((number - base) / width) as usize] += 1;
}
