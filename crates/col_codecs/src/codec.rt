//! What codecs of lists of u64 offer: readers, and estimators that write.
ghost use Rattle.std.specs.Prelude.{◌≡◌, ◌<◌, ◌+◌, ◌^◌, ℕ, List, [], ◌∷◌, ◌++◌, length, IfOk, IfErr, IfSome, None, Option};
ghost use Rattle.col_common.specs.Decoding.{Decodes};
ghost use Rattle.col_common.specs.Serializing.{Serializes, Stopped};
ghost use Rattle.col_model.specs.Stats.{stats_of};
ghost use Rattle.col_model.specs.U64List.{values64};
ghost use Rattle.col_model.specs.Codecs.{estimate, body_by};
ghost use Rattle.col_codecs.specs.ColumnStats.{stats_seen};

use crate::ColumnStats;
use bytes::Bytes;
use col_common::{ColumnarError, Iterable, Sink};
use col_values::ColumnValues;
use std::alloc::Global;

/// Gathers what a codec has to know of a list, in a first pass, tells how long the list's bytes
/// would be, and writes them in a second pass.
///
/// Each value is collected, then `finalize` is called once, and then `estimate` and `serialize`
/// may be.
pub trait ColumnCodecEstimator {
    ghost use Rattle.col_common.specs.declared.error.ColumnarError.TheVariants.{NoCodec};

    /// The codec's code.
    ghost code: { Self → ℕ };

    /// These values were collected, in order, and may be more.
    ghost Collected: { Self → List ℕ → Type 0 };

    /// These values were collected, in order, and are all.
    ghost Finalized: { Self → List ℕ → Type 0 };

    /// Takes one value more.
    fn collect(&mut self, value: u64)
        requires room { (xs : List ℕ) × Collected self.old xs × (length xs + 1 < 2 ^ 32) }
        ensures more { (xs : List ℕ) → Collected self.old xs
            → Collected self.new (xs ++ value ∷ []) }
        ensures code { code self.new ≡ code self.old };

    /// Ends the first pass.
    fn finalize(&mut self)
        requires open { (xs : List ℕ) × Collected self.old xs × (length xs < 2 ^ 32) }
        ensures all { (xs : List ℕ) → Collected self.old xs → Finalized self.new xs }
        ensures code { code self.new ≡ code self.old };

    /// How many bytes the list would take behind the codec's code; none where the codec doesn't
    /// apply.
    fn estimate(&self, stats: &ColumnStats) -> Option<u64>
        requires { (xs : List ℕ) × Finalized self.now xs × (length xs < 2 ^ 32)
            × (stats_seen stats.now ≡ stats_of xs) }
        ensures { (xs : List ℕ) → Finalized self.now xs → stats_seen stats.now ≡ stats_of xs →
            result ≡ estimate xs (code self.now) };

    /// Writes the list behind the codec's code.
    fn serialize<I: Iterable<u64>, K: Sink>(
        &self,
        alloc: Global,
        stats: &ColumnStats,
        vals: &I,
        sink: &mut K,
    ) -> Result<(), ColumnarError>
        requires collected { Finalized self.now (I.items vals.now) }
        requires count { length (I.items vals.now) < 2 ^ 32 }
        requires stats { stats_seen stats.now ≡ stats_of (I.items vals.now) }
        ensures ok { IfSome (estimate (I.items vals.now) (code self.now)) (λ _.
            Serializes (K.seen sink.old) (K.seen sink.new)
            result (body_by (code self.now) (I.items vals.now))) }
        ensures no_codec { estimate (I.items vals.now) (code self.now) ≡ None →
            Stopped sink.old sink.new result NoCodec };
}

/// A codec of lists of u64.
pub trait ColumnCodec {
    ghost use Rattle.col_common.specs.declared.error.ColumnarError.TheVariants.{OutOfMemory};

    /// The codec's code.
    ghost code: { ℕ };

    /// A list that is read in place.
    type ColumnValues: ColumnValues<u64>;

    /// What estimates and writes.
    type Estimator: ColumnCodecEstimator;

    /// Reads the bytes behind the codec's code.
    fn load(alloc: Global, bytes: Bytes) -> Result<Self::ColumnValues, ColumnarError>
        ensures { Decodes Self.ColumnValues.values result (values64 (code ∷ bytes)) };

    /// An estimator that has collected nothing.
    fn estimator(alloc: Global) -> Result<Self::Estimator, ColumnarError>
        ensures new { IfOk result (λ e. Self.Estimator.Collected e []) }
        ensures code { IfOk result (λ e. Self.Estimator.code e ≡ code) }
        ensures out_of_memory { IfErr result (λ e. e ≡ OutOfMemory) };
}
