//! Estimates and writes lists under Linear.
ghost use Rattle.std.specs.Prelude.{◌≡◌, ◌<◌, ◌+◌, ◌^◌, length};
ghost use Rattle.col_common.specs.Serializing.{Serializes};
ghost use Rattle.col_model.specs.Stats.{least_of, greatest_of, stats_of};
ghost use Rattle.col_model.specs.Codecs.{deviation, deviations, linear_line, linear_body};
ghost use Rattle.col_codecs.specs.ColumnStats.{stats_seen};
ghost use Rattle.col_codecs.specs.Line.{line_seen};
ghost use Rattle.col_codecs.specs.LinearParams.{params_seen};

use crate::codec::ColumnCodecEstimator;
use crate::column_stats::ColumnStats;
use crate::line::Line;
use crate::linear_params::LinearParams;
use crate::packing::BLOCK_LEN;
use crate::turning::serialize_turned;
use col_bits::compute_num_bits;
use col_common::{BYTE_BITS, ColumnarError, Iterable, Sink};
use col_model::BLOCK_SIZE;
use std::alloc::{AllocError, Global};

// Half of the numbers below 2^64, without one.
const HALF_SPACE: u64 = u64::MAX / 2;

/// Holds the first 512 values, then the line that is trained on them, and the least and the
/// greatest deviation of all values from it.
#[derive(Drop)]
pub struct LinearCodecEstimator {
    block: Vec<u64>,
    row_id: u32,
    linear_params: LinearParams,
    min_deviation: u64,
    max_deviation: u64,
}

impl LinearCodecEstimator {
    ghost use Rattle.std.specs.Prelude.{◌≡◌, ◌<◌, ◌+◌, ◌^◌, ◌++◌, ◌∷◌, [], ℕ, List, length, IfOk};
    ghost use Rattle.col_model.specs.Codecs.{block_size};
    ghost use Rattle.col_codecs.specs.Linear.{IsTrained, IsCollected, IsFinalized};

    /// An estimator that has collected nothing.
    pub fn new(alloc: Global) -> Result<LinearCodecEstimator, AllocError>
        ensures { IfOk result (λ e. IsCollected e []) }
    {
        Ok(LinearCodecEstimator {
            block: vec![in alloc; 0; BLOCK_SIZE]?,
            row_id: 0,
            linear_params: LinearParams {
                line: Line::default(),
                offset_width: 0,
            },
            min_deviation: u64::MAX,
            max_deviation: 0,
        })
    }

    // Takes one value more.
    #[inline]
    fn take(&mut self, value: u64)
        requires { (xs : List ℕ) × IsCollected self.old xs × (length xs + 1 < 2 ^ 32) }
        ensures { (xs : List ℕ) → IsCollected self.old xs
            → IsCollected self.new (xs ++ value ∷ []) }
    {
        if self.row_id >= BLOCK_LEN {
            let deviation = deviation_from(self.linear_params.line, self.row_id, value);
            self.min_deviation = self.min_deviation.min(deviation);
            self.max_deviation = self.max_deviation.max(deviation);
            self.row_id += 1;
            return;
        }
        self.block[self.row_id as usize] = value;
        self.row_id += 1;
        if self.row_id == BLOCK_LEN {
            self.train();
        }
    }

    // Trains the line on the buffer.
    #[cold]
    #[inline(never)]
    fn train(&mut self)
        requires { length self.old.block.items ≡ block_size }
        ensures trained { IsTrained self.new self.old.block.items }
        ensures block { self.new.block ≡ self.old.block }
        ensures row_id { self.new.row_id ≡ self.old.row_id }
    {
        let line = Line::train_block(&self.block);
        let (least, greatest) = deviation_bounds(line, &self.block);
        self.linear_params.line = line;
        self.min_deviation = least;
        self.max_deviation = greatest;
    }

    // Raises the line by the least deviation, and finds the width of the greatest offset from it.
    fn raise(&mut self)
        requires { (xs : List ℕ) × IsCollected self.old xs × (length xs < 2 ^ 32) }
        ensures { (xs : List ℕ) → IsCollected self.old xs → IsFinalized self.new xs }
    {
        if self.row_id < BLOCK_LEN {
            return;
        }
        self.linear_params.line.intercept = self
            .linear_params
            .line
            .intercept
            .wrapping_add(self.min_deviation)
            .wrapping_sub(HALF_SPACE);
        self.linear_params.offset_width = compute_num_bits(self.max_deviation - self.min_deviation);
    }
}

impl ColumnCodecEstimator for LinearCodecEstimator {
    ghost use Rattle.col_codecs.specs.Linear.{IsCollected, IsFinalized};

    ghost code = { λ e. 1 };

    ghost Collected = { IsCollected };

    ghost Finalized = { IsFinalized };

    #[inline]
    fn collect(&mut self, value: u64) {
        self.take(value);
    }

    fn finalize(&mut self) {
        self.raise();
    }

    fn estimate(&self, stats: &ColumnStats) -> Option<u64> {
        if self.row_id < BLOCK_LEN {
            return None;
        }
        let params = self.linear_params;
        let packed_bits = u64::from(self.row_id) * u64::from(params.offset_width);
        Some(
            stats.num_bytes()
                + params.line.num_bytes()
                + 1
                + packed_bits.div_ceil(BYTE_BITS as u64),
        )
    }

    fn serialize<I: Iterable<u64>, K: Sink>(
        &self,
        alloc: Global,
        stats: &ColumnStats,
        vals: &I,
        sink: &mut K,
    ) -> Result<(), ColumnarError> {
        if self.row_id < BLOCK_LEN {
            return Err(ColumnarError::NoCodec);
        }
        serialize_behind_codec(alloc, stats, self.linear_params, vals, sink)
    }
}

// Adds statistics, the line and the packed offsets.
#[tactic(auto, unfolding(col_model::specs::Codecs::linear_body))]
fn serialize_behind_codec<I: Iterable<u64>, K: Sink>(
    alloc: Global,
    stats: &ColumnStats,
    params: LinearParams,
    vals: &I,
    sink: &mut K,
) -> Result<(), ColumnarError>
    requires count { length (I.items vals.now) < 2 ^ 32 }
    requires stats { stats_seen stats.now ≡ stats_of (I.items vals.now) }
    requires line { params_seen params ≡ linear_line (I.items vals.now) }
    ensures { Serializes (K.seen sink.old) (K.seen sink.new) result
        (linear_body (I.items vals.now)) }
{
    // That the greatest value has 64 bits is known where it is read.
    let _greatest = stats.max_value;
    stats.serialize(sink)?;
    params.serialize(sink)?;
    serialize_turned(alloc, &params, params.offset_width, vals, sink)
}

// How far a value at its position lies above a line, moved up by half of the space.
#[inline(always)]
fn deviation_from(line: Line, row_id: u32, value: u64) -> u64
    ensures { result ≡ deviation (line_seen line) (row_id, value) }
{
    value
        .wrapping_add(HALF_SPACE)
        .wrapping_sub(line.eval(row_id))
}

// The least and the greatest deviation of a block's values from a line.
fn deviation_bounds(line: Line, vals: &[u64]) -> (u64, u64)
    requires some { 0 < length vals.now }
    requires fits { length vals.now < 2 ^ 32 }
    ensures least { result.0 ≡ least_of (deviations (line_seen line) vals.now) }
    ensures greatest { result.1 ≡ greatest_of (deviations (line_seen line) vals.now) }
{
    let mut least = u64::MAX;
    let mut greatest = 0;
    let mut row_id = 0;
    for val in vals {
        let deviation = deviation_from(line, row_id, *val);
        least = least.min(deviation);
        greatest = greatest.max(deviation);
        row_id += 1;
    }
    (least, greatest)
}
