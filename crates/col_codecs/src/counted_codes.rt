//! Values as codes of a packed list, where each turn is a step.
ghost use Rattle.std.specs.Prelude.{◌≡◌, ℕ, ◌<◌, ◌+◌, ◌*◌};
ghost use Rattle.std.specs.Int.{is_in_range};
ghost use Rattle.std.specs.Range.{range_inclusive_start, range_inclusive_end};
ghost use Rattle.col_codecs.specs.ColumnStats.{stats_seen};

use crate::column_stats::ColumnStats;
use col_common::Steps;
use std::marker::{Model, PhantomData};
use std::ops::RangeInclusive;
use std::sync::ledger::Ledger;

/// What a packed list's codes count: divisors above the least value. It is seen through calls that
/// take steps alone, all of one ledger.
#[derive(Drop)]
pub struct CountedCodes<L: Ledger> {
    stats: ColumnStats,
    ledger: PhantomData<L>,
}

impl<L: Ledger> Model for CountedCodes<L> {
    ghost use Rattle.std.specs.Prelude.{◌<◌};
    ghost use Rattle.col_model.specs.Stats.{Stats};
    ghost use Rattle.col_codecs.specs.ColumnStats.{stats_seen};

    ghost Value = { Stats };

    ghost view = { λ c. stats_seen c.stats };

    ghost invariant = { λ c. 0 < c.stats.gcd };
}

impl<L: Ledger> CountedCodes<L> {
    /// The codes behind statistics.
    pub fn new(stats: ColumnStats) -> CountedCodes<L>
        requires { 0 < stats.gcd }
        ensures { result ≡ stats_seen stats }
    {
        CountedCodes {
            stats,
            ledger: PhantomData,
        }
    }

    /// The codes of the values from `low` to `high`: a step for each end.
    pub fn codes_between(&self, low: u64, high: u64, steps: &mut Steps<L>) -> RangeInclusive<u64>
        ensures codes { (k : ℕ) → is_in_range low high (self.now.least + self.now.divisor * k)
            ≡ is_in_range (range_inclusive_start result) (range_inclusive_end result) k }
        ensures steps { steps.new ≡ steps.old + 2 }
    {
        let ColumnStats { gcd, min_value, .. } = self.stats;
        steps.tick();
        let first = low.saturating_sub(min_value).div_ceil(gcd);
        steps.tick();
        if high < min_value {
            return 1..=0;
        }
        first..=(high - min_value) / gcd
    }
}
