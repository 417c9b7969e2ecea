//! Numbers as codes of a space, and back, where each turn is a step.
ghost use Rattle.std.specs.Prelude.{◌≡◌, ℕ, ◌≤◌, ◌+◌, Some};
ghost use Rattle.std.specs.Int.{is_in_range};
ghost use Rattle.std.specs.Range.{range_inclusive_start, range_inclusive_end};
ghost use Rattle.col_model.specs.AddressList.{code_count, coded_number};

use crate::compact_space::CompactSpace;
use col_common::Steps;
use std::marker::{Model, PhantomData};
use std::ops::RangeInclusive;
use std::sync::ledger::Ledger;

/// The codes of ranges. They are seen through calls that take steps alone, all of one ledger.
#[derive(Drop)]
pub(crate) struct CountedCodes<'a, L: Ledger> {
    space: &'a CompactSpace,
    ledger: PhantomData<L>,
}

impl<'a, L: Ledger> Model for CountedCodes<'a, L> {
    ghost use Rattle.std.specs.Prelude.{List, ℕ};

    ghost Value = { List (ℕ × ℕ) };

    ghost view = { λ c. c.space.now };
}

impl<'a, L: Ledger> CountedCodes<'a, L> {
    /// The codes of a space.
    pub(crate) fn new(space: &'a CompactSpace) -> CountedCodes<'a, L>
        ensures { result ≡ space.now }
    {
        CountedCodes {
            space,
            ledger: PhantomData,
        }
    }

    /// The first and the last code of the numbers from `low` to `high`: a step for each end.
    pub(crate) fn codes_between(
        &self,
        low: u128,
        high: u128,
        steps: &mut Steps<L>,
    ) -> RangeInclusive<u64>
        ensures codes { (k : ℕ) → 1 ≤ k → k ≤ code_count self.now →
            is_in_range low high (coded_number self.now k)
            ≡ is_in_range (range_inclusive_start result) (range_inclusive_end result) k }
        ensures steps { steps.new ≡ steps.old + 2 }
    {
        steps.tick();
        let first = self.space.code_up(low);
        steps.tick();
        let past = self.space.code_above(high);
        first..=past.saturating_sub(1)
    }

    /// The number that a code stands for, if it is one of the ranges': a step.
    pub(crate) fn number_of(&self, code: u64, steps: &mut Steps<L>) -> Option<u128>
        ensures value { 1 ≤ code → code ≤ code_count self.now →
            result ≡ Some (coded_number self.now code) }
        ensures steps { steps.new ≡ steps.old + 1 }
    {
        steps.tick();
        let last = self.space.amplitude_compact_space();
        if code == 0 || code > u64::from(last) {
            return None;
        }
        Some(self.space.compact_to_u128(code as u32))
    }
}
