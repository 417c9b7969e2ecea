//! Lists of values: what they can be asked, their views and maps, the codecs of numbers, and
//! addresses as codes.

pub use col_codecs::{
    BitpackedCodec, BitpackedCodecEstimator, BitpackedReader, BlockwiseLinearCodec,
    BlockwiseLinearEstimator, BlockwiseLinearReader, ColumnCodec, ColumnCodecEstimator,
    ColumnStats, Line, LinearCodec, LinearCodecEstimator, LinearReader, Positions, StatsCollector,
};
pub use col_common::Steps;
pub use col_compact::{
    BlankRange, CompactHit, CompactSpace, CompactSpaceCompressor, CompactSpaceDecompressor,
    CompactSpaceU64Accessor, IPCodecParams, U128FastFieldCodecType, U128Header, U128View,
    get_compact_space, open_u128_as_compact_u64, open_u128_mapped, serialize_column_values_u128,
};
pub use col_numbers::{
    ALL_U64_CODEC_TYPES, CodecType, Estimator, MapI64ToU64, MapToOtherHalf, MapU64ToI64, NumValues,
    NumView, U64Values, load_u64_based_column_values, serialize_and_load_u64_based_column_values,
    serialize_u64_based_column_values,
};
pub use col_values::{
    ColumnValues, EmptyColumnValues, MonotonicColumn, MonotonicallyMappableToU64,
    MonotonicallyMappableToU128, StrictlyMonotonicFn, StrictlyMonotonicMappingInverter,
    StrictlyMonotonicMappingToInternal, ValuesIter, VecColumn, monotonic_map_column,
};
