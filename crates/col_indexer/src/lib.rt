//! Builds, merges and writes indexes. Contracts see an index on its way as the rows with a value
//! and their start offsets.
#![tactic(auto)]

mod checks;
mod listed;
mod merge;
mod row_ids;
mod runs;
mod serialize;
mod serialize_index;
mod serialize_rows;
mod shuffled;
mod stacked;
mod stacked_lists;
mod stacked_runs;
mod start_offsets;
mod value_index;
mod writing_laws;

pub use col_index::{Cardinality, ColumnIndex, Version, open_column_index};
pub use merge::{merge_column_index, merge_column_index_shuffled, merge_column_index_stacked};
pub use row_ids::RowIds;
pub use serialize::{
    SerializableColumnIndex, SerializableMultivalueIndex, SerializableOptionalIndex,
    serialize_optional_index,
};
pub use serialize_index::{serialize_column_index, serialize_multivalued_index};
pub use shuffled::{ShuffledRowIds, ShuffledStartOffsets};
pub use stacked::{StackedRowIds, StackedStartOffsets};
pub use start_offsets::StartOffsets;
pub use value_index::{
    FullIndexBuilder, IndexBuilder, MultivaluedIndexBuilder, OptionalIndexBuilder,
    PreallocatedIndexBuilders,
};
pub use writing_laws::indexes_are_read_back;
