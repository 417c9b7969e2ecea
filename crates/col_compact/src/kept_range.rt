//! Ranges as a space keeps them.
ghost use Rattle.std.specs.Prelude.{◌≡◌, ◌-◌, ◌<◌, ◌≤◌, ◌^◌};
ghost use Rattle.std.proofs.Common.{rules};
ghost use Rattle.std.specs.Cmp.Rules.{comparing};
ghost use Rattle.std.specs.Ordering.{on};

use crate::compact_space::RangeMapping;
use std::marker::Model;

// How many numbers there are of 64 bits.
const HALF: u128 = 1 << 64;

/// A range that has fewer than 2 ^ 32 numbers, and the code of its first one, in 24 bytes.
#[derive(Drop)]
pub(crate) struct KeptRange {
    high: u64,
    low: u64,
    span: u32,
    compact_start: u32,
}

impl Model for KeptRange {
    ghost use Rattle.std.specs.Prelude.{◌+◌, ◌*◌, ◌^◌, ◌<◌};
    ghost use Rattle.col_compact.specs.declared.compact_space.RangeMapping.{RangeMapping};

    ghost Value = { RangeMapping };

    ghost view = { λ s. record {
      start = s.high * 2 ^ 64 + s.low;
      end = s.high * 2 ^ 64 + s.low + s.span;
      compact_start = s.compact_start;
    } };

    ghost invariant = { λ s. s.high * 2 ^ 64 + s.low + s.span < 2 ^ 128 };
}

impl KeptRange {
    /// The range in its small form.
    #[inline(always)]
    pub(crate) fn new(range: RangeMapping) -> KeptRange
        requires ordered { range.start ≤ range.end }
        requires short { range.end - range.start < 2 ^ 32 }
        ensures { result ≡ range }
    {
        KeptRange {
            high: (range.start / HALF) as u64,
            low: (range.start % HALF) as u64,
            span: (range.end - range.start) as u32,
            compact_start: range.compact_start,
        }
    }

    /// The range.
    #[inline(always)]
    pub(crate) fn get(&self) -> RangeMapping
        ensures { result ≡ self.now }
    {
        let start = self.start();
        RangeMapping {
            start,
            end: start + u128::from(self.span),
            compact_start: self.compact_start,
        }
    }

    /// Its first number.
    #[inline(always)]
    pub(crate) fn start(&self) -> u128
        ensures { result ≡ self.now.start }
    {
        u128::from(self.high) * HALF + u128::from(self.low)
    }

    /// The code of that number.
    #[inline(always)]
    pub(crate) fn compact_start(&self) -> u32
        ensures { result ≡ self.now.compact_start }
    {
        self.compact_start
    }

    /// The code of its last number, as far as one has 32 bits. No promise is made of it.
    pub(crate) fn last_code(&self) -> u32 {
        self.compact_start.saturating_add(self.span)
    }
}

// Ranges are equal where their numbers are.
impl PartialEq for KeptRange {
    ghost use Rattle.col_compact.specs.Mapped.{range_of, same_range};

    ghost eq = { on range_of same_range };

    ghost laws = { Prim.search (comparing, rules) };

    fn eq(&self, other: &KeptRange) -> bool {
        self.start() == other.start() && self.get().end == other.get().end
    }
}
