//! Numbers by position with the bounds of their blocks: the pass that finds the bounds, and the
//! lookup that passes over blocks by them.
ghost use Rattle.std.specs.Prelude.{◌≡◌, ◌<◌, ◌≤◌, ◌+◌, ◌-◌, ◌%◌, ◌^◌, ◌++◌, ℕ, length, map, slice_index_or, IfOk, OnOk};
ghost use Rattle.std.specs.Int.{is_in_range};
ghost use Rattle.std.specs.List.{range_with_len};
ghost use Rattle.col_common.specs.Replacing.{Replaces};
ghost use Rattle.col_model.specs.Stats.{stats_of};
ghost use Rattle.col_codecs.specs.ColumnStats.{stats_seen, collected_of};
ghost use Rattle.col_codecs.specs.BlockBounds.{AreBounds, Enclose};
ghost use Rattle.col_codecs.specs.BoundedItems.{ids_by};

use crate::block_bounds::{
    BOUNDED_LEN, BOUNDED_SIZE, Bounds, bounds_of, is_inside, is_outside, push_all, small_bounds_of,
};
use crate::column_stats::ColumnStats;
use crate::stats_collector::{StatsCollector, collect_bounded};
use col_common::ColumnarError;
use std::alloc::{AllocError, Global};
use std::ops::Range;

/// Numbers by position, which are read a block at a time.
pub trait BoundedItems {
    ghost use Rattle.std.specs.Prelude.{◌≡◌, ◌<◌, ◌≤◌, ◌+◌, ◌-◌, ◌^◌, ◌++◌, ℕ, true, length, map, OnOk};
    ghost use Rattle.std.specs.List.{range_with_len};
    ghost use Rattle.col_codecs.specs.BoundedItems.{ids_by};

    /// The number at a position.
    ghost item: { Self → ℕ → ℕ };

    /// The positions below this can be read.
    ghost count: { Self → ℕ };

    /// What they are read from is whole.
    ghost IsWhole: { Self → Type 0 };

    /// Reads the numbers from a position on.
    fn read(&self, start: u32, output: &mut [u64])
        requires whole { IsWhole self.now }
        requires within { start + length output.old ≤ count self.now }
        ensures { output.new ≡
            map (item self.now) (range_with_len start (length output.old)) };

    /// Whether each number is known to have 32 bits.
    fn is_small(&self) -> bool
        ensures { result ≡ true → (i : ℕ) → item self.now i < 2 ^ 32 }
    {
        false
    }

    /// Appends which of the ids of a block have a number from `low` to `high`. They are first put
    /// into `block`, which has a place for each id.
    fn push_ids(
        &self,
        low: u64,
        high: u64,
        ids: Range<u32>,
        block: &mut [u32],
        hits: &mut Vec<u32>,
    ) -> Result<(), AllocError>
        requires whole { IsWhole self.now }
        requires order { ids.start ≤ ids.end }
        requires within { ids.end ≤ count self.now }
        requires short { ids.end - ids.start ≤ 1024 }
        requires room { ids.end - ids.start ≤ length block.old }
        ensures { OnOk result (hits.new.items ≡ hits.old.items
            ++ ids_by (item self.now) low high ids.start (ids.end - ids.start)) }
    {
        let mut vals = [0; BOUNDED_SIZE];
        let vals = &mut vals[..(ids.end - ids.start) as usize];
        self.read(ids.start, vals);
        push_within(vals, low, high, ids.start, block, hits)
    }
}

// Whether a number is one from `low` to `high`.
#[inline(always)]
fn is_within(low: u64, value: u64, high: u64) -> bool
    ensures { result ≡ is_in_range low high value }
{
    low <= value && value <= high
}

// Appends the ids from `start` on of which the number, next in the list, is one from `low` to
// `high`; they are first put into the block.
fn push_within(
    vals: &[u64],
    low: u64,
    high: u64,
    start: u32,
    block: &mut [u32],
    hits: &mut Vec<u32>,
) -> Result<(), AllocError>
    requires room { length vals.now ≤ length block.old }
    requires fits { start + length vals.now < 2 ^ 32 }
    ensures { OnOk result (hits.new.items ≡ hits.old.items
        ++ ids_by (λ id. slice_index_or vals.now (id - start) 0) low high start
        (length vals.now)) }
{
    let mut found = 0;
    for at in 0..vals.len() {
        block[found] = start + at as u32;
        found += is_within(low, vals[at], high) as usize;
    }
    hits.extend_from_slice(&block[..found])
}

/// The statistics of the first numbers, and the bounds of their blocks.
pub fn read_bounds<I: BoundedItems>(
    alloc: Global,
    items: &I,
    count: u32,
) -> Result<(ColumnStats, Vec<Bounds>), AllocError>
    requires whole { I.IsWhole items.now }
    requires within { count ≤ I.count items.now }
    ensures stats { IfOk result (λ r.
        stats_seen r.0 ≡ stats_of (map (I.item items.now) (range_with_len 0 count))) }
    ensures bounds { IfOk result (λ r. Enclose r.1.items (I.item items.now) count) }
{
    let mut bounds = Vec::with_capacity(alloc, count.div_ceil(BOUNDED_LEN) as usize)?;
    let mut collector = StatsCollector::default();
    let mut block = [0; BOUNDED_SIZE];
    let mut from = 0;
    while from < count {
        let len = (count - from).min(BOUNDED_LEN);
        let block = &mut block[..len as usize];
        let (more, found) = read_block(collector, items, from, block);
        collector = more;
        bounds.push(found)?;
        from += len;
    }
    Ok((collector.stats(), bounds))
}

// A collector that took as many numbers more as the block has room for, from a position on, and
// their bounds.
fn read_block<I: BoundedItems>(
    collector: StatsCollector,
    items: &I,
    from: u32,
    block: &mut [u64],
) -> (StatsCollector, Bounds)
    requires whole { I.IsWhole items.now }
    requires within { from + length block.old ≤ I.count items.now }
    requires some { 0 < length block.old }
    requires room { from + length block.old < 2 ^ 32 }
    requires collected { collector ≡
        collected_of (map (I.item items.now) (range_with_len 0 from)) }
    ensures collected { result.0 ≡ collected_of
        (map (I.item items.now) (range_with_len 0 (from + length block.old))) }
    ensures bounds { AreBounds result.1
        (map (I.item items.now) (range_with_len from (length block.old))) }
{
    items.read(from, block);
    let bounds = bounds_read(items, block);
    (collect_bounded(collector, block, bounds), bounds)
}

// The bounds of numbers that were read.
fn bounds_read<I: BoundedItems>(items: &I, vals: &[u64]) -> Bounds
    requires some { 0 < length vals.now }
    requires read { (from : ℕ) × (vals.now ≡
        map (I.item items.now) (range_with_len from (length vals.now))) }
    ensures { AreBounds result vals.now }
{
    if items.is_small() {
        return small_bounds_of(vals);
    }
    bounds_of(vals)
}

/// Puts there which of the ids have a number from `low` to `high`, block by block.
pub fn find_ids<I: BoundedItems>(
    items: &I,
    bounds: &[Bounds],
    low: u64,
    high: u64,
    ids: Range<u32>,
    hits: &mut Vec<u32>,
) -> Result<(), ColumnarError>
    requires whole { I.IsWhole items.now }
    requires within { ids.end ≤ I.count items.now }
    requires enclosed { Enclose bounds.now (I.item items.now) ids.end }
    ensures { Replaces result hits.new.items
        (ids_by (I.item items.now) low high ids.start (ids.end - ids.start)) }
{
    hits.clear();
    let mut block = [0; BOUNDED_SIZE];
    let mut from = ids.start;
    while from < ids.end {
        let to = from + (ids.end - from).min(BOUNDED_LEN - from % BOUNDED_LEN);
        let pushed = push_block(items, bounds, low, high, from..to, &mut block, hits);
        if let Err(_wanting) = pushed {
            hits.clear();
            return Err(ColumnarError::OutOfMemory);
        }
        from = to;
    }
    Ok(())
}

// Appends those of one block: none where it lies outside the range, and all where it lies inside.
fn push_block<I: BoundedItems>(
    items: &I,
    bounds: &[Bounds],
    low: u64,
    high: u64,
    ids: Range<u32>,
    block: &mut [u32],
    hits: &mut Vec<u32>,
) -> Result<(), AllocError>
    requires whole { I.IsWhole items.now }
    requires order { ids.start ≤ ids.end }
    requires within { ids.end ≤ I.count items.now }
    requires block { ids.start % 1024 + (ids.end - ids.start) ≤ 1024 }
    requires room { ids.end - ids.start ≤ length block.old }
    requires enclosed { Enclose bounds.now (I.item items.now) ids.end }
    ensures { OnOk result (hits.new.items ≡ hits.old.items
        ++ ids_by (I.item items.now) low high ids.start (ids.end - ids.start)) }
{
    let at = (ids.start / BOUNDED_LEN) as usize;
    if is_outside(bounds, at, low, high) {
        return Ok(());
    }
    if is_inside(bounds, at, low, high) {
        return push_all(ids, hits);
    }
    items.push_ids(low, high, ids, block, hits)
}
