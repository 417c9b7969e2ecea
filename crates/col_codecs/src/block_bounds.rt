//! The least and the greatest number of each block of a list, by which a lookup passes over blocks.
ghost use Rattle.std.specs.Prelude.{◌≡◌, ◌<◌, ◌≤◌, ◌+◌, ◌-◌, ◌^◌, ◌++◌, ℕ, true, false, length, take, OnOk};
ghost use Rattle.std.specs.Int.{is_in_range};
ghost use Rattle.std.specs.List.{AllByRecursion, range_with_len};
ghost use Rattle.col_common.specs.Ascending.{AreBelow};
ghost use Rattle.col_codecs.specs.BlockBounds.{AreBounds, LiesIn};

use std::alloc::AllocError;
use std::ops::Range;

/// How many numbers a block has; the last one may have fewer.
pub const BOUNDED_SIZE: usize = 1024;

/// The same as a count of rows.
pub const BOUNDED_LEN: u32 = BOUNDED_SIZE as u32;

/// The least and the greatest of the numbers of a block.
#[derive(Clone, Copy)]
pub struct Bounds {
    pub least: u64,
    pub greatest: u64,
}

/// The bounds of numbers.
pub fn bounds_of(vals: &[u64]) -> Bounds
    requires { 0 < length vals.now }
    ensures { AreBounds result vals.now }
{
    if are_small(vals) {
        return small_bounds_of(vals);
    }
    wide_bounds_of(vals)
}

// Whether each number has 32 bits.
fn are_small(vals: &[u64]) -> bool
    ensures { result ≡ true → AreBelow (2 ^ 32) vals.now }
{
    let mut greatest = 0;
    for value in vals {
        greatest = greatest.max((*value >> 32) as u32);
    }
    greatest == 0
}

// The bounds of numbers, in lanes of 64 bits.
fn wide_bounds_of(vals: &[u64]) -> Bounds
    requires { 0 < length vals.now }
    ensures { AreBounds result vals.now }
{
    let first = vals[0];
    let mut least = first;
    let mut greatest = first;
    for value in vals {
        least = least.min(*value);
        greatest = greatest.max(*value);
    }
    Bounds { least, greatest }
}

/// The bounds of numbers of 32 bits, in lanes of as many.
pub fn small_bounds_of(vals: &[u64]) -> Bounds
    requires some { 0 < length vals.now }
    requires small { AreBelow (2 ^ 32) vals.now }
    ensures { AreBounds result vals.now }
{
    let first = vals[0] as u32;
    let mut least = first;
    let mut greatest = first;
    for value in vals {
        let value = *value as u32;
        least = least.min(value);
        greatest = greatest.max(value);
    }
    Bounds {
        least: least.into(),
        greatest: greatest.into(),
    }
}

/// Whether the numbers of a block are known to lie outside a range.
pub fn is_outside(bounds: &[Bounds], block: usize, low: u64, high: u64) -> bool
    ensures { result ≡ true → (v : ℕ) → LiesIn bounds.now block v → is_in_range low high v ≡ false }
{
    if block >= bounds.len() {
        return false;
    }
    let Bounds { least, greatest } = bounds[block];
    greatest < low || high < least
}

/// Whether the numbers of a block are known to lie inside a range.
pub fn is_inside(bounds: &[Bounds], block: usize, low: u64, high: u64) -> bool
    ensures { result ≡ true → (v : ℕ) → LiesIn bounds.now block v → is_in_range low high v ≡ true }
{
    if block >= bounds.len() {
        return false;
    }
    let Bounds { least, greatest } = bounds[block];
    low <= least && greatest <= high
}

/// Appends all ids of a range.
pub fn push_all(ids: Range<u32>, hits: &mut Vec<u32>) -> Result<(), AllocError>
    requires { ids.start ≤ ids.end }
    ensures { OnOk result (hits.new.items ≡ hits.old.items
        ++ range_with_len ids.start (ids.end - ids.start)) }
{
    let len = hits.len();
    let count = (ids.end - ids.start) as usize;
    hits.resize(len + count, 0)?;
    write_all(ids.start, hits.as_mut_slice(), len);
    Ok(())
}

// Writes ids from place `at` on, each one more than that before it.
fn write_all(start: u32, output: &mut [u32], at: usize)
    requires within { at ≤ length output.old }
    requires fits { start + (length output.old - at) < 2 ^ 32 }
    ensures { output.new ≡ take at output.old ++ range_with_len start (length output.old - at) }
{
    for place in at..output.len() {
        output[place] = start + (place - at) as u32;
    }
}
