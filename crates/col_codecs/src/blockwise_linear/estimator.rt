//! How long a list's bytes are under BlockwiseLinear.
ghost use Rattle.std.specs.Prelude.{◌≡◌, ◌<◌, ◌≤◌, length, IfOk, []};
ghost use Rattle.col_model.specs.Codecs.{block_size, block_estimate, log2};

use super::offsets::train_offsets;
use super::writer::serialize_behind_codec;
use crate::codec::ColumnCodecEstimator;
use crate::column_stats::ColumnStats;
use col_common::{BYTE_BITS, ColumnarError, Iterable, Sink, U64_NUM_BYTES};
use col_model::BLOCK_SIZE;
use std::alloc::{AllocError, Global};

// The binary logarithm of 2^64, less 1.
const MAX_LOG: u32 = 63;

/// Collects blocks of values, and adds up the bytes that they take.
#[derive(Drop)]
pub struct BlockwiseLinearEstimator {
    block: Vec<u64>,
    len: usize,
    num_bytes: u64,
}

// How many bytes a block takes, whose values become their offsets.
fn estimate_block(vals: &mut [u64]) -> u64
    requires some { 0 < length vals.old }
    requires small { length vals.old ≤ block_size }
    ensures { result ≡ block_estimate vals.old }
{
    let count = vals.len() as u64;
    let params = train_offsets(vals);
    1 + params.line.num_bytes()
        + (count * u64::from(params.offset_width)).div_ceil(BYTE_BITS as u64)
}

// The binary logarithm, rounded down.
fn log2(value: u64) -> u32
    requires { 0 < value }
    ensures { result ≡ log2 value }
{
    MAX_LOG - value.leading_zeros()
}

impl BlockwiseLinearEstimator {
    ghost use Rattle.std.specs.Prelude.{◌≡◌, ◌<◌, ◌+◌, ◌^◌, ◌++◌, ℕ, List, length, IfOk, [], ◌∷◌};
    ghost use Rattle.col_codecs.specs.Blockwise.{IsCollected, IsFinalized};

    /// An estimator that has collected nothing.
    pub fn new(alloc: Global) -> Result<BlockwiseLinearEstimator, AllocError>
        ensures { IfOk result (λ e. IsCollected e []) }
    {
        Ok(BlockwiseLinearEstimator {
            block: vec![in alloc; 0; BLOCK_SIZE]?,
            len: 0,
            num_bytes: 0,
        })
    }

    // Takes one value more.
    fn take(&mut self, value: u64)
        requires { (xs : List ℕ) × IsCollected self.old xs × (length xs + 1 < 2 ^ 32) }
        ensures { (xs : List ℕ) → IsCollected self.old xs →
            IsCollected self.new (xs ++ value ∷ []) }
    {
        self.block[self.len] = value;
        self.len += 1;
        if self.len == BLOCK_SIZE {
            self.num_bytes += estimate_block(&mut self.block);
            self.len = 0;
        }
    }

    // Takes the last block, where it is shorter.
    fn take_last(&mut self)
        requires { (xs : List ℕ) × IsCollected self.old xs × (length xs < 2 ^ 32) }
        ensures { (xs : List ℕ) → IsCollected self.old xs → IsFinalized self.new xs }
    {
        if self.len > 0 {
            self.block.truncate(self.len);
            self.num_bytes += estimate_block(&mut self.block);
        }
    }
}

impl ColumnCodecEstimator for BlockwiseLinearEstimator {
    ghost use Rattle.std.specs.Prelude.{◌≡◌, ◌<◌, ◌+◌, ◌^◌, ◌++◌, ℕ, List, length, [], ◌∷◌};
    ghost use Rattle.col_codecs.specs.Blockwise.{IsCollected, IsFinalized};

    ghost code = { λ e. 2 };

    ghost Collected = { IsCollected };

    ghost Finalized = { IsFinalized };

    #[inline]
    fn collect(&mut self, value: u64) {
        self.take(value);
    }

    fn finalize(&mut self) {
        self.take_last();
    }

    fn estimate(&self, stats: &ColumnStats) -> Option<u64> {
        let num_bytes = U64_NUM_BYTES as u64 + stats.num_bytes() + self.num_bytes;
        let spared = u64::from(log2(stats.gcd)) * u64::from(stats.num_rows) / BYTE_BITS as u64;
        Some(num_bytes.saturating_sub(spared))
    }

    fn serialize<I: Iterable<u64>, K: Sink>(
        &self,
        alloc: Global,
        stats: &ColumnStats,
        vals: &I,
        sink: &mut K,
    ) -> Result<(), ColumnarError> {
        serialize_behind_codec(alloc, stats, vals, sink)
    }
}
