//! An estimator of any codec.
ghost use Rattle.std.specs.Prelude.{◌≡◌, ◌<◌, ◌^◌, [], IfOk, length};

use col_codecs::{
    BitpackedCodecEstimator, BlockwiseLinearEstimator, ColumnCodecEstimator, ColumnStats,
    LinearCodecEstimator,
};
use col_common::{ColumnarError, Iterable, Sink};
use std::alloc::Global;

/// An estimator of any codec.
#[derive(Drop)]
pub enum Estimator {
    Bitpacked(BitpackedCodecEstimator),
    Linear(LinearCodecEstimator),
    BlockwiseLinear(BlockwiseLinearEstimator),
}

impl ColumnCodecEstimator for Estimator {
    ghost use Rattle.col_numbers.specs.Estimators.{estimator_code, HasCollected, HasFinalized};

    ghost code = { estimator_code };

    ghost Collected = { HasCollected };

    ghost Finalized = { HasFinalized };

    fn collect(&mut self, value: u64) {
        match self {
            Estimator::Bitpacked(estimator) => estimator.collect(value),
            Estimator::Linear(estimator) => estimator.collect(value),
            Estimator::BlockwiseLinear(estimator) => estimator.collect(value),
        }
    }

    fn finalize(&mut self) {
        match self {
            Estimator::Bitpacked(estimator) => estimator.finalize(),
            Estimator::Linear(estimator) => estimator.finalize(),
            Estimator::BlockwiseLinear(estimator) => estimator.finalize(),
        }
    }

    fn estimate(&self, stats: &ColumnStats) -> Option<u64> {
        match self {
            Estimator::Bitpacked(estimator) => estimator.estimate(stats),
            Estimator::Linear(estimator) => estimator.estimate(stats),
            Estimator::BlockwiseLinear(estimator) => estimator.estimate(stats),
        }
    }

    fn serialize<I: Iterable<u64>, K: Sink>(
        &self,
        alloc: Global,
        stats: &ColumnStats,
        vals: &I,
        sink: &mut K,
    ) -> Result<(), ColumnarError> {
        match self {
            Estimator::Bitpacked(estimator) => estimator.serialize(alloc, stats, vals, sink),
            Estimator::Linear(estimator) => estimator.serialize(alloc, stats, vals, sink),
            Estimator::BlockwiseLinear(estimator) => estimator.serialize(alloc, stats, vals, sink),
        }
    }
}

// Collects all values of a list.
fn collect_each<E: ColumnCodecEstimator, I: Iterable<u64>>(estimator: &mut E, vals: &I)
    requires open { E.Collected estimator.old [] }
    requires count { length (I.items vals.now) < 2 ^ 32 }
    ensures all { E.Finalized estimator.new (I.items vals.now) }
    ensures code { E.code estimator.new ≡ E.code estimator.old }
{
    let mut at = vals.walk();
    while let Some(value) = vals.next(&mut at) {
        estimator.collect(value);
    }
    estimator.finalize();
}

impl Estimator {
    ghost use Rattle.col_numbers.specs.Estimators.{estimator_code, HasCollected, HasFinalized};

    /// The codec's code.
    pub fn to_code(&self) -> u8
        ensures { result ≡ estimator_code self.now }
    {
        match self {
            Estimator::Bitpacked(_) => 0,
            Estimator::Linear(_) => 1,
            Estimator::BlockwiseLinear(_) => 2,
        }
    }

    /// Collects all values of a list, and ends the first pass. Bitpacked has nothing to collect.
    pub fn collect_all<I: Iterable<u64>>(&mut self, vals: &I)
        requires open { HasCollected self.old [] }
        requires count { length (I.items vals.now) < 2 ^ 32 }
        ensures all { HasFinalized self.new (I.items vals.now) }
        ensures code { estimator_code self.new ≡ estimator_code self.old }
    {
        match self {
            Estimator::Bitpacked(estimator) => collect_each(estimator, vals),
            Estimator::Linear(estimator) => collect_each(estimator, vals),
            Estimator::BlockwiseLinear(estimator) => collect_each(estimator, vals),
        }
    }
}
