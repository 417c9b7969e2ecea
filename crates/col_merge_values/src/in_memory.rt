//! Merged values that are walked once, and written from memory.
ghost use Rattle.std.specs.Prelude.{◌≡◌, ◌<◌, ◌^◌, false, length, map, IfOk, OnOk};
ghost use Rattle.col_common.specs.Serializing.{Serializes};
ghost use Rattle.col_common.specs.declared.error.ColumnarError.TheVariants as refusals;
ghost use Rattle.col_compact.specs.Covers.{IsTooLarge};
ghost use Rattle.col_model.specs.AddressList.{least_codes};
ghost use Rattle.col_model.specs.ColumnType as types;
ghost use Rattle.col_indexer.specs.Merged.{IsMerged};
ghost use Rattle.col_indexer.specs.Spelling.{IsIndex, index_shape, is_past_limit};
ghost use Rattle.col_indexer.specs.Written.{index_of, HasLists};
ghost use Rattle.col_column.specs.Columns.{IsCounted};
ghost use Rattle.col_column.specs.Written.{number_column_bytes, column_codecs, StandForRows, SerializesRows, Refused};
ghost use Rattle.col_merge_values.specs.Merges.{values_of};

use crate::merged_column_values::MergedColumnValues;
use col_column::{serialize_column_mappable_to_u64, serialize_column_mappable_to_u128};
use col_common::{ColumnarError, Iterable, Sink};
use col_indexer::{RowIds, SerializableColumnIndex, StartOffsets};
use col_values::{ColumnValues, MonotonicallyMappableToU64, MonotonicallyMappableToU128};
use std::alloc::{AllocError, Global};

/// A list that can be put into memory as a whole.
pub trait InMemory<T>: Iterable<T> {
    /// Its items. The list has room for those of a stack, and for about those of a shuffle.
    fn in_memory(&self, alloc: Global) -> Result<Vec<T>, AllocError>
        ensures { IfOk result (λ v. v.items ≡ Self.items self.now) };
}

/// Writes a column of the rows that an order picks, as numbers of 64 bits, behind an index that
/// counts them. The values are walked once, and so are the rows that a shuffle picks.
pub fn serialize_merged_u64<T: MonotonicallyMappableToU64, V: ColumnValues<T>, K: Sink>(
    alloc: Global,
    column_index: SerializableColumnIndex<'_>,
    column_values: &MergedColumnValues<'_, T, V>,
    sink: &mut K,
) -> Result<(), ColumnarError>
    requires index { IsIndex (index_of column_index) }
    requires limit { is_past_limit (index_of column_index) ≡ false }
    requires merged { IsMerged column_values.now.order column_values.now.columns.shapes
        (index_of column_index) }
    requires counted { IsCounted (index_shape (index_of column_index))
        (length (values_of column_values.now)) }
    requires few { length (values_of column_values.now) < 2 ^ 32 }
    ensures ok { Serializes (K.seen sink.old) (K.seen sink.new) result
        (number_column_bytes column_codecs (index_of column_index.entry)
        (map T.code (values_of column_values.now))) }
    // What was written stands for the rows.
    ensures again { OnOk result (StandForRows
        (number_column_bytes column_codecs (index_of column_index.entry)
        (map T.code (values_of column_values.now)))
        (index_shape (index_of column_index.entry)) (map T.code (values_of column_values.now))) }
{
    match column_values.picked(alloc, &column_index)? {
        Some(picked) => {
            let rows = RowIds::Slice(&picked.rows);
            let index = column_index.with_lists(rows, StartOffsets::Slice(&picked.starts));
            serialize_column_mappable_to_u64(alloc, index, &picked.values.as_slice(), sink)
        }
        None => {
            let values = column_values.in_memory(alloc)?;
            serialize_column_mappable_to_u64(alloc, column_index, &values.as_slice(), sink)
        }
    }
}

/// Writes a column of an index and the values that it counts, as numbers of 128 bits. The values
/// are walked once. It answers TooLarge where there are more values, or more codes are needed, than
/// 32 bits count; then the index may have been written.
pub fn serialize_collected_u128<T: MonotonicallyMappableToU128, I: InMemory<T>, K: Sink>(
    alloc: Global,
    column_index: SerializableColumnIndex<'_>,
    column_values: &I,
    sink: &mut K,
) -> Result<(), ColumnarError>
    requires index { IsIndex (index_of column_index) }
    requires limit { is_past_limit (index_of column_index) ≡ false }
    requires counted { IsCounted (index_shape (index_of column_index))
        (length (I.items column_values.now)) }
    // What is added stands for the rows.
    ensures ok { least_codes (map T.code (I.items column_values.now)) < 2 ^ 32 →
        length (I.items column_values.now) < 2 ^ 32 →
        SerializesRows (K.seen sink.old) (K.seen sink.new) result types.ip
        (index_shape (index_of column_index.entry)) (map T.code (I.items column_values.now)) }
    ensures too_large { IsTooLarge (map T.code (I.items column_values.now)) u32.MAX →
        Refused (K.seen sink.old) (K.seen sink.new) result refusals.TooLarge }
{
    let values = column_values.in_memory(alloc)?;
    serialize_column_mappable_to_u128(alloc, column_index, &values.as_slice(), sink)
}
