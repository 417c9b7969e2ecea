//! Which rows of a column have values, and where these stand: indexes that are opened, built,
//! written and merged.

pub use col_index::{
    Cardinality, ColumnIndex, IndexRuns, MultiValueIndex, MultiValueIndexV1, MultiValueIndexV2,
    NonNullDocs, OptionalIndex, OptionalIndexSelectCursor, SelectCursor, Set, open_column_index,
    open_multivalued_index, open_optional_index,
};
pub use col_indexer::{
    FullIndexBuilder, IndexBuilder, MultivaluedIndexBuilder, OptionalIndexBuilder,
    PreallocatedIndexBuilders, RowIds, SerializableColumnIndex, SerializableMultivalueIndex,
    SerializableOptionalIndex, ShuffledRowIds, ShuffledStartOffsets, StackedRowIds,
    StackedStartOffsets, StartOffsets, merge_column_index, merge_column_index_shuffled,
    merge_column_index_stacked, serialize_column_index, serialize_multivalued_index,
    serialize_optional_index,
};
