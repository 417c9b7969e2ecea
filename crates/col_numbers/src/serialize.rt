//! Lists of numbers, written under the codec that takes the fewest bytes.
ghost use Rattle.std.specs.Prelude.{◌≡◌, ◌≤◌, ◌<◌, ◌^◌, ℕ, List, [], ◌∷◌, ◌++◌, map, length, option_map, ◌⊎◌, Some, None, Err, IfOk, IfErr, IfSome, IfNone, OnOk};
ghost use Rattle.std.specs.List.{AllByRecursion};
ghost use Rattle.col_common.specs.Ascending.{AreBelow};
ghost use Rattle.col_common.specs.Decoding.{Decodes};
ghost use Rattle.col_numbers.specs.NumValues.{num_values_of, images_of};
ghost use Rattle.col_numbers.specs.Readers.{list_of};
ghost use Rattle.col_common.specs.Serializing.{Serializes, Stopped, done};
ghost use Rattle.col_model.specs.Stats.{stats_of};
ghost use Rattle.col_model.specs.U64List.{values64};
ghost use Rattle.col_model.specs.Codecs.{codec_bytes, estimate};
ghost use Rattle.col_codecs.specs.ColumnStats.{stats_seen};
ghost use Rattle.col_numbers.specs.CodecTypes.{code_of};
ghost use Rattle.col_numbers.specs.Written.{chosen_of, list_refusal, AppendsList, HasBest};
ghost use Rattle.col_numbers.specs.Estimators.{estimator_code, HasFinalized};
ghost use Rattle.col_common.specs.declared.error.ColumnarError.TheVariants as refusals;

use crate::{
    CodecType, Estimator, NumValues, U64Values, load_u64_based_column_values, load_u64_values,
};
use bytes::Bytes;
use col_codecs::{ColumnCodecEstimator, ColumnStats, StatsCollector};
use col_common::{Buffer, ColumnarError, Iterable, Sink, Walk, serialize_bytes};
use col_values::MonotonicallyMappableToU64;
use std::alloc::Global;
use std::marker::PhantomData;

/// The numbers of values.
#[derive(Drop)]
struct Numbers<'a, T, I> {
    vals: &'a I,
    types: PhantomData<T>,
}

impl<'a, T: MonotonicallyMappableToU64, I: Iterable<T>> Iterable<u64> for Numbers<'a, T, I> {
    ghost items = { λ s. map T.code (I.items s.vals.now) };

    ghost stands = { λ s w. I.stands s.vals.now w };

    ghost left = { λ s w. map T.code (I.left s.vals.now w) };

    fn walk(&self) -> Walk {
        self.vals.walk()
    }

    #[inline]
    fn next(&self, at: &mut Walk) -> Option<u64> {
        match self.vals.next(at) {
            Some(value) => Some(value.to_u64()),
            None => None,
        }
    }
}

/// The statistics of a list; none of too many values.
pub fn collect_stats<I: Iterable<u64>>(vals: &I) -> Option<ColumnStats>
    ensures stats { IfSome result (λ s. stats_seen s ≡ stats_of (I.items vals.now)) }
    ensures count { IfSome result (λ s. length (I.items vals.now) < 2 ^ 32) }
    ensures fit { IfSome result (λ s. AreBelow (2 ^ 64) (I.items vals.now)) }
    ensures none { IfNone result (2 ^ 32 ≤ length (I.items vals.now)) }
{
    let mut collector = StatsCollector::default();
    let mut count = 0u32;
    let mut at = vals.walk();
    while let Some(value) = vals.next(&mut at) {
        if count == u32::MAX {
            return None;
        }
        count += 1;
        collector.collect(value);
    }
    let stats = collector.stats();
    // That the greatest value has 64 bits is known where it is read.
    let _greatest = stats.max_value;
    Some(stats)
}

/// An estimator that has collected a list, with its estimate.
#[derive(Drop)]
struct Candidate {
    num_bytes: u64,
    estimator: Estimator,
}

// The one with the lesser estimate, and of equal ones the earlier.
fn better(
    best: Option<Candidate>,
    estimator: Estimator,
    num_bytes: Option<u64>,
) -> Option<Candidate>
    ensures { (xs codecs : List ℕ) → HasBest xs codecs best → HasFinalized estimator xs →
        num_bytes ≡ estimate xs (estimator_code estimator) →
        HasBest xs (codecs ++ estimator_code estimator ∷ []) result }
{
    let Some(num_bytes) = num_bytes else {
        return best;
    };
    let next = Candidate {
        num_bytes,
        estimator,
    };
    let Some(held) = best else {
        return Some(next);
    };
    if next.num_bytes < held.num_bytes {
        Some(next)
    } else {
        Some(held)
    }
}

// The estimator of the codec with the least estimate; none where no codec has one.
fn choose<I: Iterable<u64>>(
    alloc: Global,
    vals: &I,
    stats: &ColumnStats,
    codec_types: &[CodecType],
) -> Result<Option<Candidate>, ColumnarError>
    requires count { length (I.items vals.now) < 2 ^ 32 }
    requires stats { stats_seen stats.now ≡ stats_of (I.items vals.now) }
    ensures ok { IfOk result (HasBest (I.items vals.now) (map code_of codec_types.now)) }
    ensures out_of_memory { IfErr result (λ e. e ≡ refusals.OutOfMemory) }
{
    let mut best = None;
    for codec in codec_types {
        let mut estimator = codec.estimator(alloc)?;
        estimator.collect_all(vals);
        let num_bytes = estimator.estimate(stats);
        best = better(best, estimator, num_bytes);
    }
    Ok(best)
}

/// Writes a list of values under the first of the offered codecs that has the least estimate.
pub fn serialize_u64_based_column_values<T: MonotonicallyMappableToU64, I: Iterable<T>, K: Sink>(
    alloc: Global,
    vals: &I,
    codec_types: &[CodecType],
    sink: &mut K,
) -> Result<(), ColumnarError>
    // What is added stands for the list, and is its form under the codec that is chosen.
    ensures list { OnOk result
        (AppendsList (K.seen sink.old) (K.seen sink.new) (map T.code (I.items vals.now))) }
    ensures ok { IfSome (chosen_of (map T.code (I.items vals.now)) codec_types.now)
        (λ codec. length (I.items vals.now) < 2 ^ 32 →
        Serializes (K.seen sink.old) (K.seen sink.new)
        result (codec_bytes codec (map T.code (I.items vals.now)))) }

    // No codec is given, there are too many values, or no codec applies, in this order, before the
    // first byte.
    ensures refused { IfSome
        (list_refusal (map T.code (I.items vals.now)) (map code_of codec_types.now))
        (Stopped sink.old sink.new result) }
{
    serialize_estimated_values(alloc, vals, codec_types, sink)?;
    Ok(())
}

/// Does the same, and tells the estimate.
pub fn serialize_estimated_values<T: MonotonicallyMappableToU64, I: Iterable<T>, K: Sink>(
    alloc: Global,
    vals: &I,
    codec_types: &[CodecType],
    sink: &mut K,
) -> Result<u64, ColumnarError>
    ensures list { OnOk result
        (AppendsList (K.seen sink.old) (K.seen sink.new) (map T.code (I.items vals.now))) }
    ensures ok { IfSome (chosen_of (map T.code (I.items vals.now)) codec_types.now)
        (λ codec. length (I.items vals.now) < 2 ^ 32 →
        Serializes (K.seen sink.old) (K.seen sink.new)
        (done result) (codec_bytes codec (map T.code (I.items vals.now)))) }
    ensures estimate { IfOk result (λ n. IfSome
        (chosen_of (map T.code (I.items vals.now)) codec_types.now)
        (λ codec. estimate (map T.code (I.items vals.now)) codec ≡ Some n)) }
    ensures refused { IfSome
        (list_refusal (map T.code (I.items vals.now)) (map code_of codec_types.now))
        (Stopped sink.old sink.new (done result)) }
{
    if codec_types.is_empty() {
        return Err(ColumnarError::NoCodec);
    }
    let numbers: Numbers<'_, T, I> = Numbers {
        vals,
        types: PhantomData,
    };
    let Some(stats) = collect_stats(&numbers) else {
        return Err(ColumnarError::TooLarge);
    };
    let Some(chosen) = choose(alloc, &numbers, &stats, codec_types)? else {
        return Err(ColumnarError::NoCodec);
    };
    serialize_bytes(sink, &[chosen.estimator.to_code()])?;
    chosen.estimator.serialize(alloc, &stats, &numbers, sink)?;
    Ok(chosen.num_bytes)
}

/// Writes a list of numbers, and reads it back.
pub fn serialize_and_load_u64_values<T, I>(
    alloc: Global,
    vals: &I,
    codec_types: &[CodecType],
) -> Result<U64Values, ColumnarError>
where
    T: MonotonicallyMappableToU64,
    I: Iterable<T>,
    ensures ok { IfNone (list_refusal (map T.code (I.items vals.now)) (map code_of codec_types.now))
        (Decodes list_of result (Some (map T.code (I.items vals.now)))) }
    ensures refused { IfSome
        (list_refusal (map T.code (I.items vals.now)) (map code_of codec_types.now)) (λ e.
        (result ≡ Err e) ⊎ (result ≡ Err refusals.OutOfMemory)) }
{
    let mut buffer = Buffer::new(alloc);
    serialize_u64_based_column_values(alloc, vals, codec_types, &mut buffer)?;
    load_u64_values(alloc, Bytes::from_vec(buffer.into_bytes())?)
}

/// Writes a list of numbers, and reads it as values of a type, each of which must be one.
pub fn serialize_and_load_u64_based_column_values<T, I>(
    alloc: Global,
    vals: &I,
    codec_types: &[CodecType],
) -> Result<NumValues<T>, ColumnarError>
where
    T: MonotonicallyMappableToU64 + Default,
    I: Iterable<u64>,
    ensures ok { IfNone (list_refusal (I.items vals.now) (map code_of codec_types.now))
        (Decodes num_values_of result
        (option_map (map T.value) (images_of T.is_code (I.items vals.now)))) }
    ensures refused { IfSome (list_refusal (I.items vals.now) (map code_of codec_types.now)) (λ e.
        (result ≡ Err e) ⊎ (result ≡ Err refusals.OutOfMemory)) }
{
    let mut buffer = Buffer::new(alloc);
    serialize_u64_based_column_values(alloc, vals, codec_types, &mut buffer)?;
    load_u64_based_column_values(alloc, Bytes::from_vec(buffer.into_bytes())?)
}
