//! Statistics of values that come one by one.
ghost use Rattle.std.specs.Prelude.{◌≡◌, ◌==◌, ◌<◌, ◌+◌, ◌^◌, ℕ, List, [], ◌∷◌, ◌++◌, length};
ghost use Rattle.std.specs.Int.{IsGcd};
ghost use Rattle.col_model.specs.Stats.{stats_of, gcd};
ghost use Rattle.col_codecs.specs.BlockBounds.{AreBounds};
ghost use Rattle.col_codecs.specs.ColumnStats.{stats_seen, Collected, collected_of};

use crate::block_bounds::Bounds;
use crate::column_stats::ColumnStats;
use col_common::RowId;
use std::marker::Model;

/// The greatest common divisor, which of 0 and a number is that number.
///
/// It is faster where the first number is the greater one.
pub fn compute_gcd(large: u64, small: u64) -> u64
    ensures value { result ≡ gcd large small }
    // It divides both, and each number that divides both divides it.
    ensures greatest { IsGcd large small result }
{
    let mut large = large;
    let mut small = small;
    while small != 0 {
        let rest = large % small;
        large = small;
        small = rest;
    }
    large
}

// The divisor with one more difference; it changes seldom.
fn finer_gcd(increment_gcd: u64, difference: u64) -> u64
    ensures { result ≡ gcd increment_gcd difference }
{
    if increment_gcd == 1 {
        1
    } else {
        compute_gcd(difference, increment_gcd)
    }
}

/// Collects values, and holds the divisor of their differences, 0 where all of them are 0.
#[derive(Clone, Copy)]
pub struct StatsCollector {
    min_value: u64,
    max_value: u64,
    increment_gcd: u64,
    num_rows: RowId,
}

impl Model for StatsCollector {
    ghost Value = { Collected };

    ghost view = { λ c. record {
      least = c.min_value;
      greatest = c.max_value;
      divisor = c.increment_gcd;
      count = c.num_rows;
    } };

    ghost inverse = { λ c. record {
      min_value = c.least;
      max_value = c.greatest;
      increment_gcd = c.divisor;
      num_rows = c.count;
    } };
}

impl Default for StatsCollector {
    ghost is_default = { λ c. c ≡ collected_of [] };

    /// A collector of no values.
    #[tactic(auto, unfolding(crate::specs::ColumnStats::collected_of))]
    fn default() -> StatsCollector {
        StatsCollector {
            min_value: 0,
            max_value: 0,
            increment_gcd: 0,
            num_rows: 0,
        }
    }
}

impl StatsCollector {
    /// Takes one value more.
    #[inline]
    pub fn collect(&mut self, value: u64)
        requires { self.old.count + 1 < 2 ^ 32 }
        ensures { (xs : List ℕ) → self.old ≡ collected_of xs →
            self.new ≡ collected_of (xs ++ value ∷ []) }
    {
        if self.num_rows == 0 {
            self.min_value = value;
            self.max_value = value;
        } else {
            let difference = value.abs_diff(self.min_value);
            self.increment_gcd = finer_gcd(self.increment_gcd, difference);
            self.min_value = self.min_value.min(value);
            self.max_value = self.max_value.max(value);
        }
        self.num_rows += 1;
    }

    /// Whether the divisor is 1, so that no value changes it.
    #[inline]
    pub fn is_finest(&self) -> bool
        ensures { result ≡ (self.now.divisor == 1) }
    {
        self.increment_gcd == 1
    }

    /// Takes as many values more as are counted, which have these bounds, where the divisor is 1.
    pub fn widen_by(&mut self, bounds: Bounds, count: u32)
        requires room { self.old.count + count < 2 ^ 32 }
        requires finest { self.old.divisor ≡ 1 }
        ensures { (xs ys : List ℕ) → self.old ≡ collected_of xs → AreBounds bounds ys →
            length ys ≡ count → self.new ≡ collected_of (xs ++ ys) }
    {
        self.min_value = self.min_value.min(bounds.least);
        self.max_value = self.max_value.max(bounds.greatest);
        self.num_rows += count;
    }

    /// The statistics of what was collected.
    pub fn stats(&self) -> ColumnStats
        ensures { (xs : List ℕ) → self.now ≡ collected_of xs → stats_seen result ≡ stats_of xs }
    {
        ColumnStats {
            gcd: self.increment_gcd.max(1),
            min_value: self.min_value,
            max_value: self.max_value,
            num_rows: self.num_rows,
        }
    }
}

/// A collector that took the values of a block more, which have these bounds.
pub fn collect_bounded(collector: StatsCollector, vals: &[u64], bounds: Bounds) -> StatsCollector
    requires bounds { AreBounds bounds vals.now }
    requires room { (xs : List ℕ) × (collector ≡ collected_of xs)
        × (length xs + length vals.now < 2 ^ 32) }
    ensures { (xs : List ℕ) → collector ≡ collected_of xs →
        result ≡ collected_of (xs ++ vals.now) }
{
    let mut collector = collector;
    if collector.is_finest() {
        collector.widen_by(bounds, vals.len() as u32);
        return collector;
    }
    for at in 0..vals.len() {
        collector.collect(vals[at]);
    }
    collector
}
