//! Writes indexes.
ghost use Rattle.std.specs.Prelude.{◌≡◌, ◌^◌, ◌<◌, nat_le, length, Some, IfOk};
ghost use Rattle.col_common.specs.Serializing.{Serializes, done};
ghost use Rattle.col_model.specs.Index.{row_set};
ghost use Rattle.col_model.specs.Positions.{starts_of};
ghost use Rattle.col_model.specs.Version.{current_version};
ghost use Rattle.col_index.specs.MultiValues.{value_counts_of};
ghost use Rattle.col_index.specs.Versions.{cardinality_of};
ghost use Rattle.col_indexer.specs.RowViews.{rows_of};
ghost use Rattle.col_indexer.specs.OffsetViews.{start_offsets_of};
ghost use Rattle.col_indexer.specs.Stacks.{stacked_counts};
ghost use Rattle.col_indexer.specs.Spelling.{index_list_bytes, row_set_bytes};
ghost use Rattle.col_indexer.specs.Spelling.{optional_index, IsIndex};
ghost use Rattle.col_indexer.specs.Written.{SerializesIndexList};

use crate::serialize_rows::serialize_row_set;
use crate::stacked_lists::starts_of_index;
use crate::{RowIds, StackedStartOffsets, StartOffsets, indexes_are_read_back};
use col_common::{ColumnarError, Iterable, RowId, Sink};
use col_index::{Cardinality, MultiValueIndex, OptionalIndex};
use col_numbers::{CodecType, serialize_estimated_values};
use std::alloc::{AllocError, Global};

// The codecs that the lists of an index are offered.
const CODEC_TYPES: [CodecType; 2] = [CodecType::Bitpacked, CodecType::Linear];

/// Rows with a value, which rise, of so many rows.
#[derive(Drop)]
pub struct SerializableOptionalIndex<'a> {
    pub non_null_row_ids: RowIds<'a>,
    pub num_rows: RowId,
}

/// Rows with a value, and their start offsets.
#[derive(Drop)]
pub struct SerializableMultivalueIndex<'a> {
    pub doc_ids_with_values: SerializableOptionalIndex<'a>,
    pub start_offsets: StartOffsets<'a>,
}

/// An index that can be written.
#[derive(Drop)]
pub enum SerializableColumnIndex<'a> {
    Full,
    Optional(SerializableOptionalIndex<'a>),
    Multivalued(SerializableMultivalueIndex<'a>),
}

impl<'a> From<&'a OptionalIndex> for SerializableOptionalIndex<'a> {
    ghost use Rattle.col_indexer.specs.Written.{set_of};

    fn from(optional_index: &'a OptionalIndex) -> SerializableOptionalIndex<'a>
        ensures { set_of result ≡ optional_index.now }
    {
        SerializableOptionalIndex {
            num_rows: optional_index.num_docs(),
            non_null_row_ids: RowIds::Index(optional_index),
        }
    }
}

impl SerializableMultivalueIndex<'_> {
    ghost use Rattle.std.specs.Prelude.{◌-◌};
    ghost use Rattle.col_indexer.specs.Spelling.{multivalued_index};
    ghost use Rattle.col_indexer.specs.Written.{row_offsets_of};

    /// Whether more rows have a value than may be.
    pub fn is_past_limit(&self) -> bool
        requires { IsIndex (multivalued_index (row_offsets_of self.now)) }
        ensures { result ≡ nat_le (2 ^ 32 - 1) (length (row_offsets_of self.now).set.rows) }
    {
        let rows = &self.doc_ids_with_values;
        // The rows need no count where there are fewer of them.
        if rows.num_rows < RowId::MAX {
            return false;
        }
        has_so_many(&rows.non_null_row_ids, u64::from(RowId::MAX))
    }
}

impl SerializableColumnIndex<'_> {
    ghost use Rattle.col_indexer.specs.Spelling.{is_past_limit};
    ghost use Rattle.col_indexer.specs.Written.{index_of, cardinality_written};

    /// The cardinality.
    pub fn get_cardinality(&self) -> Cardinality
        ensures { cardinality_of result ≡ cardinality_written (index_of self.now) }
    {
        match self {
            SerializableColumnIndex::Full => Cardinality::Full,
            SerializableColumnIndex::Optional(_) => Cardinality::Optional,
            SerializableColumnIndex::Multivalued(_) => Cardinality::Multivalued,
        }
    }

    /// Whether it is Multivalued and can't be written, since more rows have a value than may be.
    pub fn is_past_limit(&self) -> bool
        requires { IsIndex (index_of self.now) }
        ensures { result ≡ is_past_limit (index_of self.now) }
    {
        match self {
            SerializableColumnIndex::Full | SerializableColumnIndex::Optional(_) => false,
            SerializableColumnIndex::Multivalued(index) => index.is_past_limit(),
        }
    }
}

// Whether a list has so many items.
fn has_so_many<I: Iterable<RowId>>(list: &I, count: u64) -> bool
    ensures { result ≡ nat_le count (length (I.items list.now)) }
{
    let mut at = list.walk();
    for _found in 0..count {
        let Some(_item) = list.next(&mut at) else {
            return false;
        };
    }
    true
}

/// Writes rows with a value, which rise, of so many rows.
pub fn serialize_optional_index<K: Sink>(
    alloc: Global,
    non_null_row_ids: &RowIds<'_>,
    num_rows: RowId,
    sink: &mut K,
) -> Result<(), ColumnarError>
    requires { IsIndex (optional_index
        (record { num_rows = num_rows; rows = rows_of non_null_row_ids.now })) }
    ensures ok { Serializes (K.seen sink.old) (K.seen sink.new) result
        (row_set_bytes (record { num_rows = num_rows; rows = rows_of non_null_row_ids.now })) }
    // What was written stands for the rows.
    ensures again { row_set current_version
        (row_set_bytes (record { num_rows = num_rows; rows = rows_of non_null_row_ids.now }))
        ≡ Some (record { num_rows = num_rows; rows = rows_of non_null_row_ids.now }) }
{
    indexes_are_read_back();
    serialize_row_set(alloc, non_null_row_ids, num_rows, sink)?;
    Ok(())
}

/// Writes a list of start offsets, and tells how many bytes it takes. One that is in memory is
/// written from there.
pub(crate) fn serialize_starts<K: Sink>(
    alloc: Global,
    starts: &StartOffsets<'_>,
    sink: &mut K,
) -> Result<u64, ColumnarError>
    requires { length (start_offsets_of starts.now) < 2 ^ 32 }
    ensures ok { SerializesIndexList (K.seen sink.old) (K.seen sink.new) result
        (start_offsets_of starts.now) }
    ensures length { IfOk result (λ n.
        n ≡ length (index_list_bytes (start_offsets_of starts.now))) }
{
    match starts {
        StartOffsets::Slice(starts) => serialize_list(alloc, starts, sink),
        StartOffsets::Index(index) => serialize_index_starts(alloc, index, sink),
        StartOffsets::Stacked(starts) => serialize_stacked_starts(alloc, starts, sink),
        StartOffsets::Shuffled(starts) => {
            serialize_collected(alloc, starts, starts.max_len(), sink)
        }
    }
}

// Writes the start offsets of an index, and tells how many bytes they take.
fn serialize_index_starts<K: Sink>(
    alloc: Global,
    index: &MultiValueIndex,
    sink: &mut K,
) -> Result<u64, ColumnarError>
    requires { length (starts_of (value_counts_of index.now)) < 2 ^ 32 }
    ensures ok { SerializesIndexList (K.seen sink.old) (K.seen sink.new) result
        (starts_of (value_counts_of index.now)) }
    ensures length { IfOk result (λ n.
        n ≡ length (index_list_bytes (starts_of (value_counts_of index.now)))) }
{
    let items = starts_of_index(alloc, index)?;
    serialize_list(alloc, &items.as_slice(), sink)
}

// Writes the start offsets of indexes one behind another, and tells how many bytes they take.
fn serialize_stacked_starts<K: Sink>(
    alloc: Global,
    starts: &StackedStartOffsets<'_>,
    sink: &mut K,
) -> Result<u64, ColumnarError>
    requires { length (starts_of (stacked_counts starts.now)) < 2 ^ 32 }
    ensures ok { SerializesIndexList (K.seen sink.old) (K.seen sink.new) result
        (starts_of (stacked_counts starts.now)) }
    ensures length { IfOk result (λ n.
        n ≡ length (index_list_bytes (starts_of (stacked_counts starts.now)))) }
{
    let items = starts.collected(alloc)?;
    serialize_list(alloc, &items.as_slice(), sink)
}

/// The items of a list, in memory, with room for so many from the start.
pub(crate) fn collected_with_capacity<T, I>(
    alloc: Global,
    list: &I,
    capacity: usize,
) -> Result<Vec<T>, AllocError>
where
    T: Copy,
    I: Iterable<T>,
    ensures { IfOk result (λ v. v.items ≡ I.items list.now) }
{
    let mut items = Vec::with_capacity(alloc, capacity)?;
    let mut at = list.walk();
    while let Some(item) = list.next(&mut at) {
        items.push(item)?;
    }
    Ok(items)
}

// Writes a list that is walked once, with room for so many items, and tells how many bytes it
// takes.
fn serialize_collected<I: Iterable<RowId>, K: Sink>(
    alloc: Global,
    list: &I,
    capacity: usize,
    sink: &mut K,
) -> Result<u64, ColumnarError>
    requires { length (I.items list.now) < 2 ^ 32 }
    ensures ok { SerializesIndexList (K.seen sink.old) (K.seen sink.new) result (I.items list.now) }
    ensures length { IfOk result (λ n. n ≡ length (index_list_bytes (I.items list.now))) }
{
    let items: Vec<RowId> = collected_with_capacity(alloc, list, capacity)?;
    serialize_list(alloc, &items.as_slice(), sink)
}

/// Writes a list under the codec that takes the fewest bytes, and tells how many. The list is walked
/// several times.
pub(crate) fn serialize_list<I: Iterable<RowId>, K: Sink>(
    alloc: Global,
    list: &I,
    sink: &mut K,
) -> Result<u64, ColumnarError>
    requires { length (I.items list.now) < 2 ^ 32 }
    ensures ok { SerializesIndexList (K.seen sink.old) (K.seen sink.new) result (I.items list.now) }
    ensures length { IfOk result (λ n. n ≡ length (index_list_bytes (I.items list.now))) }
{
    let len = serialize_estimated_values(alloc, list, &CODEC_TYPES, sink)?;
    Ok(1 + len)
}
