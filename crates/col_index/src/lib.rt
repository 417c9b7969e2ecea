//! How many values each row of a column has, and where they stand. Contracts see an index as a
//! shape with its counts.
#![tactic(auto)]

mod appending;
mod cardinality;
mod column_index;
mod counted_rows;
mod format_version;
mod held_rows;
mod index_runs;
mod laws;
mod listed_rows;
mod multivalued_index;
mod multivalued_index_v1;
mod multivalued_index_v2;
mod non_null_docs;
mod open;
mod optional_counts;
mod optional_index;
mod optional_walks;
mod rank_buckets;
mod rank_near;
mod rank_words;
mod ranks;
mod rising;
mod row_by_row;
mod row_lows;
mod row_runs;
mod rows_near;
mod run_bits;
mod run_places;
mod run_ranks;
mod run_starts;
mod run_walks;
mod search;
mod select_cursor;
mod select_near;
mod selected_runs;
mod set;
mod start_offsets;
mod summed_runs;
mod walked_rows;
mod windows;

pub use cardinality::Cardinality;
pub use col_order::{MergeRowOrder, ShuffleMergeOrder, StackMergeOrder};
pub use column_index::ColumnIndex;
pub use format_version::{CURRENT_VERSION, Version};
pub use index_runs::IndexRuns;
pub use laws::{
    cardinalities_compare_as_their_codes, indexes_have_counts, versions_are_equal_as_their_numbers,
};
pub use multivalued_index::MultiValueIndex;
pub use multivalued_index_v1::MultiValueIndexV1;
pub use multivalued_index_v2::MultiValueIndexV2;
pub use non_null_docs::NonNullDocs;
pub use open::{open_column_index, open_multivalued_index, open_optional_index};
pub use optional_index::OptionalIndex;
pub use select_cursor::OptionalIndexSelectCursor;
pub use set::{SelectCursor, Set};
