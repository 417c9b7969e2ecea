//! Gaps between numbers.
ghost use Rattle.std.specs.Prelude.{◌≡◌, ◌+◌, ◌-◌, ◌^◌, ◌≤◌, ◌↔◌, min, IsOk, IfOk};
ghost use Rattle.std.specs.Range.{range_inclusive_start, range_inclusive_end};

use crate::build_compact_space::MIN_BLANK_SIZE;
use col_common::InvalidData;
use std::marker::Model;
use std::ops::RangeInclusive;

/// A range of three numbers or more that a list doesn't have, ordered by size, and then by start.
/// Contracts see its first and its last number.
#[derive(Clone, Copy, Debug, PartialEq, Eq, PartialOrd, Ord)]
pub struct BlankRange {
    span: u128,
    start: u128,
}

impl Model for BlankRange {
    ghost use Rattle.std.specs.Prelude.{ℕ, ◌+◌, ◌-◌, ◌^◌, ◌≤◌, ◌<◌};

    ghost Value = { ℕ × ℕ };

    ghost view = { λ b. (b.start, b.start + b.span) };

    ghost invariant = { λ b. (2 ≤ b.span) × (b.start + b.span < 2 ^ 128) };

    ghost inverse = { λ r. record { span = r.1 - r.0; start = r.0 } };
}

impl TryFrom<RangeInclusive<u128>> for BlankRange {
    type Error = InvalidData;

    ghost try_from_gives = { λ range result.
        (IsOk result ↔ (range_inclusive_start range + 2 ≤ range_inclusive_end range))
        × IfOk result (λ b. b ≡ (range_inclusive_start range, range_inclusive_end range)) };

    fn try_from(range: RangeInclusive<u128>) -> Result<BlankRange, InvalidData> {
        let (start, last) = range.into_inner();
        let span = last.saturating_sub(start);
        if span < MIN_BLANK_SIZE - 1 {
            return Err(InvalidData);
        }
        Ok(BlankRange { span, start })
    }
}

impl BlankRange {
    /// How many numbers the range has, 2 ^ 128 - 1 where these are all.
    pub fn blank_size(&self) -> u128
        ensures { result ≡ min (self.now.1 + 1 - self.now.0) (2 ^ 128 - 1) }
    {
        self.span.saturating_add(1)
    }

    /// The range.
    pub fn blank_range(&self) -> RangeInclusive<u128>
        ensures start { range_inclusive_start result ≡ self.now.0 }
        ensures last { range_inclusive_end result ≡ self.now.1 }
    {
        self.start..=self.start + self.span
    }
}
