//! Writes the bytes of columns.
ghost use Rattle.std.specs.Prelude.{◌≡◌, ◌<◌, ◌^◌, ◌++◌, [], false, true, length, map, slice_get, Some, OnOk};
ghost use Rattle.std.specs.Int.{w64, to_le_bytes};
ghost use Rattle.col_common.specs.Ascending.{AreBelow};
ghost use Rattle.col_common.specs.Serializing.{Serializes, Stopped};
ghost use Rattle.col_common.specs.Walks.{int_range};
ghost use Rattle.col_common.specs.declared.error.ColumnarError.TheVariants as refusals;
ghost use Rattle.col_compact.specs.Covers.{IsTooLarge};
ghost use Rattle.col_model.specs.AddressList.{least_codes};
ghost use Rattle.col_model.specs.ColumnType as types;
ghost use Rattle.col_model.specs.Column.{column};
ghost use Rattle.col_model.specs.Index.{full_shape};
ghost use Rattle.col_model.specs.Table.{number};
ghost use Rattle.col_model.specs.Version.{current_version};
ghost use Rattle.col_model.specs.Written.{is_past_ties};
ghost use Rattle.col_numbers.specs.CodecTypes.{code_of};
ghost use Rattle.col_indexer.specs.Spelling.{IsIndex, index_shape, is_past_limit};
ghost use Rattle.col_indexer.specs.Written.{index_of};
ghost use Rattle.col_column.specs.Columns.{IsCounted, content_seen};
ghost use Rattle.col_column.specs.Written.{numbers_bytes, number_column_bytes, column_codecs, StandForRows, SerializesBehind, SerializesRows, Refused, tie_column_bytes};

use col_common::{ColumnarError, Iterable, RowId, Sink, serialize_bytes};
use col_compact::serialize_column_values_u128;
use col_indexer::{SerializableColumnIndex, serialize_column_index};
use col_numbers::{ALL_U64_CODEC_TYPES, CodecType, serialize_u64_based_column_values};
use col_values::{MonotonicallyMappableToU64, MonotonicallyMappableToU128};
use std::alloc::Global;

// The codecs that the numbers of a column may be written under.
const CODEC_TYPES: [CodecType; 2] = [CodecType::Bitpacked, CodecType::BlockwiseLinear];

/// Writes a column of an index and the values that it counts, as numbers of 64 bits.
pub fn serialize_column_mappable_to_u64<T, I, K>(
    alloc: Global,
    column_index: SerializableColumnIndex<'_>,
    column_values: &I,
    sink: &mut K,
) -> Result<(), ColumnarError>
where
    T: MonotonicallyMappableToU64,
    I: Iterable<T>,
    K: Sink,
    requires index { IsIndex (index_of column_index) }
    requires limit { is_past_limit (index_of column_index) ≡ false }
    requires counted { IsCounted (index_shape (index_of column_index))
        (length (I.items column_values.now)) }
    requires few { length (I.items column_values.now) < 2 ^ 32 }
    ensures ok { Serializes (K.seen sink.old) (K.seen sink.new) result
        (number_column_bytes column_codecs (index_of column_index.entry)
        (map T.code (I.items column_values.now))) }
    // What was written stands for the rows.
    ensures again { OnOk result (StandForRows
        (number_column_bytes column_codecs (index_of column_index.entry)
        (map T.code (I.items column_values.now)))
        (index_shape (index_of column_index.entry)) (map T.code (I.items column_values.now))) }
{
    let index_len = serialize_column_index(alloc, column_index, sink)?;
    serialize_numbers_behind(alloc, column_values, &CODEC_TYPES, index_len, sink)
}

// Writes numbers under the best of these codecs, and the length of the index in front of them.
fn serialize_numbers_behind<T: MonotonicallyMappableToU64, I: Iterable<T>, K: Sink>(
    alloc: Global,
    column_values: &I,
    codec_types: &[CodecType],
    index_len: u64,
    sink: &mut K,
) -> Result<(), ColumnarError>
    requires few { length (I.items column_values.now) < 2 ^ 32 }
    requires bitpacked { slice_get (map code_of codec_types.now) 0 ≡ Some 0 }
    ensures ok { Serializes (K.seen sink.old) (K.seen sink.new) result
        (numbers_bytes (map code_of codec_types.now) (map T.code (I.items column_values.now))
        ++ to_le_bytes w64 index_len) }
    ensures fit { OnOk result
        (AreBelow (2 ^ 64) (map T.code (I.items column_values.now))) }
{
    serialize_u64_based_column_values(alloc, column_values, codec_types, sink)?;
    serialize_bytes(sink, &index_len.to_le_bytes())
}

/// Writes a column of an index and the values that it counts, as numbers of 128 bits. It answers
/// TooLarge where there are more values, or more codes are needed, than 32 bits count; then the
/// index may have been written.
pub fn serialize_column_mappable_to_u128<T, I, K>(
    alloc: Global,
    column_index: SerializableColumnIndex<'_>,
    column_values: &I,
    sink: &mut K,
) -> Result<(), ColumnarError>
where
    T: MonotonicallyMappableToU128,
    I: Iterable<T>,
    K: Sink,
    requires index { IsIndex (index_of column_index) }
    requires limit { is_past_limit (index_of column_index) ≡ false }
    requires counted { IsCounted (index_shape (index_of column_index))
        (length (I.items column_values.now)) }
    // What is added stands for the rows.
    ensures ok { least_codes (map T.code (I.items column_values.now)) < 2 ^ 32 →
        length (I.items column_values.now) < 2 ^ 32 →
        SerializesRows (K.seen sink.old) (K.seen sink.new) result types.ip
        (index_shape (index_of column_index.entry)) (map T.code (I.items column_values.now)) }
    ensures too_large { IsTooLarge (map T.code (I.items column_values.now)) u32.MAX →
        Refused (K.seen sink.old) (K.seen sink.new) result refusals.TooLarge }
{
    let index_len = serialize_column_index(alloc, column_index, sink)?;
    serialize_addresses_behind(alloc, column_values, index_len, sink)
}

// Writes numbers by their codes, and the length of the index in front of them.
fn serialize_addresses_behind<T: MonotonicallyMappableToU128, I: Iterable<T>, K: Sink>(
    alloc: Global,
    column_values: &I,
    index_len: u64,
    sink: &mut K,
) -> Result<(), ColumnarError>
    ensures ok { least_codes (map T.code (I.items column_values.now)) < 2 ^ 32 →
        length (I.items column_values.now) < 2 ^ 32 →
        SerializesBehind (K.seen sink.old) (K.seen sink.new) result
        (map T.code (I.items column_values.now)) (to_le_bytes w64 index_len) }
    ensures too_large { IsTooLarge (map T.code (I.items column_values.now)) u32.MAX →
        Stopped sink.old sink.new result refusals.TooLarge }
{
    serialize_column_values_u128(alloc, column_values, sink)?;
    serialize_bytes(sink, &index_len.to_le_bytes())
}

/// Writes a Full column of signed numbers that rise by 1 from a start on, one for each document. It
/// answers TieBreakerStart exactly where the start is below `i32::MIN` or above `i32::MAX` less the
/// count, before the first byte.
pub fn serialize_generated_tie_breaker_column<K: Sink>(
    alloc: Global,
    start: i64,
    num_docs: RowId,
    sink: &mut K,
) -> Result<(), ColumnarError>
    ensures ok { is_past_ties num_docs (Some start) ≡ false →
        Serializes (K.seen sink.old) (K.seen sink.new) result (tie_column_bytes start num_docs) }
    // What was written stands for the rows.
    ensures again { is_past_ties num_docs (Some start) ≡ false →
        column (tie_column_bytes start num_docs) types.i64 current_version num_docs
        ≡ Some (content_seen [] number full_shape (int_range start num_docs)) }
    ensures tie_breaker_start { is_past_ties num_docs (Some start) ≡ true →
        Stopped sink.old sink.new result refusals.TieBreakerStart }
{
    if is_past_ties(start, num_docs) {
        return Err(ColumnarError::TieBreakerStart);
    }
    let index_len = serialize_column_index(alloc, SerializableColumnIndex::Full, sink)?;
    let values = start..start + i64::from(num_docs);
    serialize_numbers_behind(alloc, &values, &ALL_U64_CODEC_TYPES, index_len, sink)
}

// Whether so many numbers from a start on leave the signed numbers of 32 bits.
fn is_past_ties(start: i64, num_docs: RowId) -> bool
    ensures { result ≡ is_past_ties num_docs (Some start) }
{
    start < i64::from(i32::MIN) || start > i64::from(i32::MAX) - i64::from(num_docs)
}
