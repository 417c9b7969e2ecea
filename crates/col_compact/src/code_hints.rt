//! Which range has a code, from a place near it that need not be right.
ghost use Rattle.std.specs.Prelude.{◌≡◌, ◌≤◌, nat_le, true, false, length};
ghost use Rattle.std.specs.List.{AllWithin};
ghost use Rattle.std.specs.List.Sorted.{IsNonDecreasingBy, IsPartitionPoint};

use crate::kept_range::KeptRange;
use std::alloc::{AllocError, Global};

// The table has at least so many bits of places, as far as there are codes: few of these places
// then have codes of two ranges.
const LEAST_BITS: u32 = 8;

// How many ranges behind its place a code is tried against: that many begin at few places.
const TRIED_RANGES: usize = 4;

/// How many ranges have codes that begin at a code or below it, by the leading bits of the code. No
/// promise is made of it.
#[derive(Drop)]
pub(crate) struct CodeHints {
    shift: u32,
    table: Vec<u32>,
}

impl CodeHints {
    /// No hints.
    pub(crate) fn none(alloc: Global) -> CodeHints {
        CodeHints {
            shift: 0,
            table: Vec::new(alloc),
        }
    }

    /// Hints for ranges whose codes rise up to the last one.
    pub(crate) fn new(alloc: Global, ranges: &[KeptRange]) -> Result<CodeHints, AllocError> {
        let last_code = match ranges.last() {
            Some(last) => last.last_code(),
            None => 0,
        };
        let code_bits = u32::BITS.saturating_sub(last_code.leading_zeros());
        let count_bits = usize::BITS.saturating_sub(ranges.len().leading_zeros());
        let shift = code_bits.saturating_sub(count_bits.max(LEAST_BITS));
        let num_places = place_of(last_code, shift).saturating_add(1);
        let mut table = Vec::with_capacity(alloc, num_places)?;
        let mut count = 0u32;
        for range in ranges {
            let before = range.compact_start().saturating_sub(1);
            for _ in table.len()..place_of(before, shift).saturating_add(1).min(num_places) {
                table.push(count)?;
            }
            count = count.saturating_add(1);
        }
        for _ in table.len()..num_places {
            table.push(count)?;
        }
        Ok(CodeHints { shift, table })
    }

    /// The hint for a code, 0 where there is none.
    #[inline(always)]
    pub(crate) fn near(&self, code: u32) -> usize {
        match self.table.as_slice().get(place_of(code, self.shift)) {
            Some(count) => *count as usize,
            None => 0,
        }
    }
}

// The leading bits of a code.
#[inline(always)]
fn place_of(code: u32, shift: u32) -> usize {
    code.wrapping_shr(shift) as usize
}

// So many ranges whose codes all begin at a code or below it: the hint, if it says that.
#[inline(always)]
fn codes_near(ranges: &[KeptRange], code: u32, hint: usize) -> usize
    requires { IsNonDecreasingBy (λ m. m.compact_start) ranges.now }
    ensures within { result ≤ length ranges.now }
    ensures below { AllWithin (λ m. nat_le m.compact_start code ≡ true) ranges.now 0 result }
{
    if hint == 0 {
        return 0;
    }
    if hint > ranges.len() {
        return 0;
    }
    if ranges[hint - 1].compact_start() > code {
        return 0;
    }
    hint
}

/// How many ranges have codes that begin at a code or below it. The hint may be any.
#[inline(always)]
pub(crate) fn codes_upto(ranges: &[KeptRange], code: u32, hint: usize) -> usize
    requires { IsNonDecreasingBy (λ m. m.compact_start) ranges.now }
    ensures within { result ≤ length ranges.now }
    ensures split { IsPartitionPoint (λ m. nat_le m.compact_start code ≡ true)
        (λ m. nat_le m.compact_start code ≡ false) ranges.now result }
{
    let mut upto = codes_near(ranges, code, hint);
    for _tried in 0..TRIED_RANGES {
        if upto == ranges.len() {
            return upto;
        }
        if ranges[upto].compact_start() > code {
            return upto;
        }
        upto += 1;
    }
    codes_behind(ranges, code, upto)
}

// The same by halves, where so many begin there.
#[inline(never)]
fn codes_behind(ranges: &[KeptRange], code: u32, low: usize) -> usize
    requires rises { IsNonDecreasingBy (λ m. m.compact_start) ranges.now }
    requires low { low ≤ length ranges.now }
    requires below { AllWithin (λ m. nat_le m.compact_start code ≡ true) ranges.now 0 low }
    ensures within { result ≤ length ranges.now }
    ensures split { IsPartitionPoint (λ m. nat_le m.compact_start code ≡ true)
        (λ m. nat_le m.compact_start code ≡ false) ranges.now result }
{
    low + ranges[low..ranges.len()].partition_point(|range| range.compact_start() <= code)
}
