//! Lists of u64 under the codec Bitpacked: steps from the least value, at the greatest one's width.
ghost use Rattle.std.specs.Prelude.{◌≡◌, ℕ, ◌<◌, ◌≤◌, ◌+◌, ◌*◌, ◌^◌, true, drop, length, map, IfOk};
ghost use Rattle.std.specs.List.{AllByRecursion};
ghost use Rattle.std.specs.Range.{range_inclusive_start, range_inclusive_end};
ghost use Rattle.col_common.specs.Ascending.{is_rising};
ghost use Rattle.col_common.specs.Replacing.{Replaces};
ghost use Rattle.col_common.specs.Decoding.{Decodes};
ghost use Rattle.col_common.specs.Serializing.{Serializes};
ghost use Rattle.col_bits.specs.Packed.{item, width};
ghost use Rattle.col_model.specs.Stats.{steps_of, least_of, greatest_of};
ghost use Rattle.col_model.specs.Codecs.{block_size, steps_above};
ghost use Rattle.col_values.specs.Codes.{number_cmp};
ghost use Rattle.col_values.specs.Values.{hits_between};
ghost use Rattle.col_codecs.specs.ColumnStats.{stats_seen, IsPossible};
ghost use Rattle.col_codecs.specs.BlockBounds.{Enclose};
ghost use Rattle.col_codecs.specs.Header.{checked, list_by};
ghost use Rattle.col_codecs.specs.Bitpacked.{bitpacked_items};

use crate::block_bounds::Bounds;
use crate::bounded_items::read_bounds;
use crate::codec::{ColumnCodec, ColumnCodecEstimator};
use crate::column_stats::ColumnStats;
use crate::counted_codes::CountedCodes;
use crate::header::take_stats;
use crate::packed_items::{PackedItems, find_values};
use crate::packing::take_steps;
use crate::step_vals::{find_vals, read_vals};
use crate::turning::{Turn, serialize_turned};
use bytes::Bytes;
use col_bits::{BitUnpacker, compute_num_bits, is_packed};
use col_common::{BYTE_BITS, ColumnarError, Iterable, RowId, Sink, Steps, Walk};
use col_values::{ColumnValues, Found, Rows};
use std::alloc::{AllocError, Global};
use std::marker::{Brand, Model};
use std::ops::{Range, RangeInclusive};
use std::sync::ledger::{Blank, Ledger};

/// A list that is read in place.
#[derive(Drop)]
pub struct BitpackedReader {
    data: Bytes,
    bit_unpacker: BitUnpacker,
    stats: ColumnStats,
    // The bounds of the steps of each block; none where all steps are 0.
    bounds: Vec<Bounds>,
}

impl Model for BitpackedReader {
    ghost use Rattle.std.specs.Prelude.{List, ℕ};
    ghost use Rattle.col_codecs.specs.ColumnStats.{stats_seen};
    ghost use Rattle.col_bits.specs.Packed.{item};
    ghost use Rattle.col_codecs.specs.BlockBounds.{Enclose};
    ghost use Rattle.col_codecs.specs.Bitpacked.{bitpacked_items, IsReader};

    ghost Value = { List ℕ };

    ghost view = { λ r. bitpacked_items (stats_seen r.stats) r.data };

    ghost invariant = { λ r. IsReader (stats_seen r.stats) r.bit_unpacker r.data
        × Enclose r.bounds.items (item r.data r.bit_unpacker) r.stats.num_rows };
}

impl BitpackedReader {
    // The list behind statistics, which must be its own.
    fn open(
        alloc: Global,
        stats: ColumnStats,
        items: Bytes,
    ) -> Result<BitpackedReader, ColumnarError>
        requires { IsPossible (stats_seen stats) }
        ensures { Decodes (λ list. list) result (list_by 0 (stats_seen stats) items) }
    {
        let num_bits = compute_num_bits(stats.steps());
        let bit_unpacker = BitUnpacker::new(num_bits);
        let bytes = items.as_slice();
        if !is_packed(bytes, stats.num_rows as usize * num_bits as usize) {
            return Err(ColumnarError::InvalidData);
        }
        let bounds = read_step_bounds(alloc, &stats, bit_unpacker, bytes)?;
        Ok(BitpackedReader {
            data: items,
            bit_unpacker,
            stats,
            bounds,
        })
    }

    /// The positions in a range whose values are from the first to the last, ascending. Both ends
    /// become steps of the packed list, each by a step of `steps`.
    pub fn get_row_ids_counted<L: Ledger>(
        &self,
        value_range: RangeInclusive<u64>,
        row_ids: Range<RowId>,
        hits: &mut Vec<RowId>,
        steps: &mut Steps<L>,
    ) -> Result<(), ColumnarError>
        ensures ok { Replaces result hits.new.items
            (hits_between number_cmp self.now (range_inclusive_start value_range)
            (range_inclusive_end value_range) row_ids.start row_ids.end) }
        ensures rises { is_rising hits.new.items ≡ true }
        ensures steps { steps.new ≤ steps.old + 2 }
    {
        let (low, high) = value_range.into_inner();
        let ids = row_ids.start..row_ids.end.min(self.stats.num_rows);
        let items = PackedItems {
            bit_unpacker: self.bit_unpacker,
            bytes: self.data.as_slice(),
        };
        let codes = CountedCodes::<L>::new(self.stats);
        find_values(&items, &self.bounds, &codes, low, high, ids, hits, steps)
    }

    /// The same list once more, which shares its bytes.
    pub fn try_clone(&self) -> Result<BitpackedReader, AllocError>
        ensures { IfOk result (λ r. r ≡ self.now) }
    {
        Ok(BitpackedReader {
            data: self.data.slice(..)?,
            bit_unpacker: self.bit_unpacker,
            stats: self.stats,
            bounds: self.bounds.clone()?,
        })
    }
}

impl ColumnValues<u64> for BitpackedReader {
    ghost values = { λ r. r };

    ghost IsLeast = { λ r v. v ≡ least_of r };

    ghost IsGreatest = { λ r v. v ≡ greatest_of r };

    fn num_vals(&self) -> u32 {
        self.stats.num_rows
    }

    #[inline(always)]
    fn get_val(&self, idx: u32) -> u64 {
        let step = self.bit_unpacker.get(idx, self.data.as_slice());
        self.stats.min_value + self.stats.gcd * step
    }

    fn min_value(&self) -> u64 {
        self.stats.min_value
    }

    fn max_value(&self) -> u64 {
        self.stats.max_value
    }

    fn get_vals(&self, indexes: &[u32], output: &mut [u64]) {
        let bytes = self.data.as_slice();
        read_vals(&self.stats, self.bit_unpacker, bytes, indexes, output);
    }

    fn get_vals_opt(&self, indexes: &[u32], output: &mut [Option<u64>]) {
        let bytes = self.data.as_slice();
        find_vals(&self.stats, self.bit_unpacker, bytes, indexes, output);
    }

    fn get_range(&self, start: u64, output: &mut [u64]) {
        // That there are fewer than 2 ^ 32 values is known of the count.
        let _count = self.stats.num_rows;
        self.bit_unpacker
            .get_range(start as u32, self.data.as_slice(), output);
        take_values(&self.stats, output);
    }

    fn get_row_ids_between(&self, low: u64, high: u64, rows: Rows, hits: &mut Vec<RowId>) -> Found {
        find_row_ids::<Brand>(self, low..=high, rows, hits, Blank::new(1))
    }
}

impl Iterable<u64> for BitpackedReader {
    ghost items = { λ r. r };

    ghost stands = { λ r w. w.place ≤ length r };

    ghost left = { λ r w. drop w.place r };

    fn walk(&self) -> Walk {
        self.iter().walk()
    }

    #[inline]
    fn next(&self, at: &mut Walk) -> Option<u64> {
        self.iter().next(at)
    }
}

// The lookup where steps count in a new ledger.
fn find_row_ids<L: Ledger>(
    list: &BitpackedReader,
    value_range: RangeInclusive<u64>,
    row_ids: Range<RowId>,
    hits: &mut Vec<RowId>,
    blank: Blank,
) -> Result<(), ColumnarError>
    requires name { blank.name ≡ L.name }
    requires parts { blank.parts ≡ L.parts }
    requires some { 0 < blank.parts }
    ensures { Replaces result hits.new.items
        (hits_between number_cmp list.now (range_inclusive_start value_range)
        (range_inclusive_end value_range) row_ids.start row_ids.end) }
{
    let mut steps = Steps::<L>::new(blank);
    list.get_row_ids_counted(value_range, row_ids, hits, &mut steps)
}

// Turns steps into the values that lie so many divisors above the least.
fn take_values(stats: &ColumnStats, steps: &mut [u64])
    requires { AllByRecursion (λ k. stats.now.min_value + stats.now.gcd * k < 2 ^ 64) steps.old }
    ensures { steps.new ≡ map (λ k. stats.now.min_value + stats.now.gcd * k) steps.old }
{
    let ColumnStats { gcd, min_value, .. } = *stats;
    if gcd == 1 {
        return raise(min_value, steps);
    }
    for at in 0..steps.len() {
        steps[at] = min_value + gcd * steps[at];
    }
}

// The same where the divisor is 1. Where the least is 0, steps are values.
fn raise(min_value: u64, steps: &mut [u64])
    requires { AllByRecursion (λ k. min_value + k < 2 ^ 64) steps.old }
    ensures { steps.new ≡ map (λ k. min_value + k) steps.old }
{
    if min_value == 0 {
        return;
    }
    for at in 0..steps.len() {
        steps[at] += min_value;
    }
}

// The bounds of the blocks of the steps, where the statistics are those of the list with these.
fn read_step_bounds(
    alloc: Global,
    stats: &ColumnStats,
    bit_unpacker: BitUnpacker,
    bytes: &[u8],
) -> Result<Vec<Bounds>, ColumnarError>
    requires possible { IsPossible (stats_seen stats.now) }
    requires width { bit_unpacker ≡ width (steps_of (stats_seen stats.now)) }
    ensures list { Decodes (λ _. bitpacked_items (stats_seen stats.now) bytes.now) result
        (checked (stats_seen stats.now) (bitpacked_items (stats_seen stats.now) bytes.now)) }
    ensures bounds { IfOk result (λ bs.
        Enclose bs.items (item bytes.now bit_unpacker) stats.now.num_rows) }
{
    let steps = stats.steps();
    if steps == 0 {
        return Ok(Vec::new(alloc));
    }
    let items = PackedItems {
        bit_unpacker,
        bytes,
    };
    let (found, bounds) = read_bounds(alloc, &items, stats.num_rows)?;
    if !found.is_same(&ColumnStats {
        gcd: 1,
        min_value: 0,
        max_value: steps,
        num_rows: stats.num_rows,
    }) {
        return Err(ColumnarError::InvalidData);
    }
    Ok(bounds)
}

// Steps are packed in place of values.
impl Turn for ColumnStats {
    ghost use Rattle.std.specs.Prelude.{◌-◌, ◌/◌};
    ghost use Rattle.col_codecs.specs.ColumnStats.{IsAbove};

    ghost turned = { λ s p. (p.1 - s.min_value) / s.gcd };

    ghost Takes = { λ s. IsAbove (stats_seen s) };

    fn turn(&self, _start: u32, vals: &mut [u64]) {
        take_steps(self, vals);
    }
}

/// The codec Bitpacked.
pub struct BitpackedCodec;

impl ColumnCodec for BitpackedCodec {
    ghost code = { 0 };

    type ColumnValues = BitpackedReader;

    type Estimator = BitpackedCodecEstimator;

    fn load(alloc: Global, bytes: Bytes) -> Result<BitpackedReader, ColumnarError> {
        let Some((stats, items)) = take_stats(bytes) else {
            return Err(ColumnarError::InvalidData);
        };
        BitpackedReader::open(alloc, stats, items)
    }

    fn estimator(_alloc: Global) -> Result<BitpackedCodecEstimator, ColumnarError> {
        Ok(BitpackedCodecEstimator)
    }
}

/// Estimates and writes lists under Bitpacked, for which the statistics are enough.
#[derive(Drop)]
pub struct BitpackedCodecEstimator;

impl ColumnCodecEstimator for BitpackedCodecEstimator {
    ghost code = { λ _. 0 };

    ghost Collected = { λ _ _. Unit {0} };

    ghost Finalized = { λ _ _. Unit {0} };

    #[inline]
    fn collect(&mut self, _value: u64) {}

    fn finalize(&mut self) {}

    fn estimate(&self, stats: &ColumnStats) -> Option<u64> {
        let num_bits = compute_num_bits(stats.steps());
        let bits = u64::from(stats.num_rows) * u64::from(num_bits);
        Some(stats.num_bytes() + bits.div_ceil(BYTE_BITS as u64))
    }

    fn serialize<I: Iterable<u64>, K: Sink>(
        &self,
        alloc: Global,
        stats: &ColumnStats,
        vals: &I,
        sink: &mut K,
    ) -> Result<(), ColumnarError> {
        // That the greatest value has 64 bits is known where it is read.
        let _greatest = stats.max_value;
        stats.serialize(sink)?;
        let num_bits = compute_num_bits(stats.steps());
        serialize_turned(alloc, stats, num_bits, vals, sink)
    }
}
