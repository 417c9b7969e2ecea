//! The statistics of the values on a line, with no walk but where they can't be told from its ends.
ghost use Rattle.std.specs.Prelude.{◌≡◌, ◌<◌, ◌≤◌, ◌%◌, ℕ, true, map};
ghost use Rattle.std.specs.List.{AllByRecursion, range_with_len};
ghost use Rattle.col_model.specs.Line.{line};
ghost use Rattle.col_model.specs.Stats.{stats_of};
ghost use Rattle.col_codecs.specs.BlockBounds.{AreBounds};
ghost use Rattle.col_codecs.specs.ColumnStats.{stats_seen, collected_of};
ghost use Rattle.col_codecs.specs.OnLine.{values_on};

use crate::block_bounds::Bounds;
use crate::column_stats::ColumnStats;
use crate::line::Line;
use crate::on_line::{HALVES, bounds_on, shift_of};
use crate::stats_collector::StatsCollector;

// How many values are walked before others are asked.
const SAMPLED: u32 = 1024;

// How far a value jumps where it passes 0 or 2 ^ 64.
const JUMP: u64 = u64::MAX - (HALVES - 1);

/// The statistics of a line's first values.
pub fn stats_on(line: Line, count: u32) -> ColumnStats
    ensures { stats_seen result ≡ stats_of (values_on line 0 count) }
{
    if count <= SAMPLED {
        return collected(line, count).stats();
    }
    let bounds = bounds_on(line, 0, count);
    ColumnStats {
        gcd: divisor_on(line, count, bounds),
        min_value: bounds.least,
        max_value: bounds.greatest,
        num_rows: count,
    }
}

// A collector that took a line's first values.
fn collected(line: Line, count: u32) -> StatsCollector
    ensures { result ≡ collected_of (values_on line 0 count) }
{
    let mut collector = StatsCollector::default();
    for x in 0..count {
        collector.collect(line.eval(x));
    }
    collector
}

// The divisor of a line's first values, which have these bounds.
fn divisor_on(line: Line, count: u32, bounds: Bounds) -> u64
    requires many { 1024 < count }
    requires bounds { AreBounds bounds (values_on line 0 count) }
    ensures { result ≡ (stats_of (values_on line 0 count)).divisor }
{
    if bounds.least == bounds.greatest {
        return 1;
    }
    let sample = sample_on(line, count, bounds);
    if sample.min_value < sample.max_value
        && is_kept(line.slope, line.intercept, count, bounds, sample.gcd)
    {
        return sample.gcd;
    }
    collected(line, count).stats().gcd
}

// The statistics of some of the values: the first ones, the bounds, one behind the first product
// that is too large, and one behind the first step that is larger than those before it.
fn sample_on(line: Line, count: u32, bounds: Bounds) -> ColumnStats
    requires many { 1024 < count }
    requires bounds { AreBounds bounds (values_on line 0 count) }
    ensures positive { 0 < result.gcd }
    ensures top { (d r : ℕ) → 0 < d → AllByRecursion (λ y. y % d ≡ r) (values_on line 0 count)
        → result.min_value < result.max_value → d ≤ result.gcd }
{
    let mut collector = collected(line, SAMPLED);
    collector.collect(bounds.least);
    collector.collect(bounds.greatest);
    let last = u64::from(count - 1);
    collector.collect(line.eval(turn_on(line).min(last) as u32));
    collector.collect(line.eval(carry_on(line).min(last) as u32));
    collector.stats()
}

// Near the first position where the product is too large, or too small.
fn turn_on(line: Line) -> u64 {
    let step = line.slope / HALVES;
    let shift = shift_of(line.intercept);
    if step >= HALVES / 2 {
        return shift / (HALVES - step) + 1;
    }
    if step == 0 {
        return 0;
    }
    (HALVES - 1 - shift) / step + 1
}

// The first position where the lower halves of the slope make a step more.
fn carry_on(line: Line) -> u64 {
    let part = line.slope % HALVES;
    if part == 0 {
        return 0;
    }
    (HALVES - 1) / part + 1
}

// Whether it is known that a divisor leaves the same of each value.
fn is_kept(slope: u64, intercept: u64, count: u32, bounds: Bounds, divisor: u64) -> bool
    requires some { 0 < count }
    requires divisor { 0 < divisor }
    requires bounds { AreBounds bounds (map (line slope intercept) (range_with_len 0 count)) }
    ensures { result ≡ true → AllByRecursion (λ y. y % divisor ≡ line slope intercept 0 % divisor)
        (map (line slope intercept) (range_with_len 0 count)) }
{
    if divisor == 1 {
        return true;
    }
    let last = u64::from(count - 1);
    if slope % HALVES * last >= HALVES {
        return false;
    }
    let step = slope / HALVES;
    if HALVES % divisor == 0 {
        return step % divisor == 0;
    }
    if bounds.greatest - bounds.least >= HALVES && JUMP % divisor != 0 {
        return false;
    }
    let shift = shift_of(intercept);
    if shift + step * last < HALVES {
        return step % divisor == 0;
    }
    let down = HALVES - step;
    down * last <= shift && down % divisor == 0
}
