//! What a merge of files is made of: merged terms, and values and ordinals in a merged order.

pub use col_merge_terms::{MatchingSegments, TermMerger, TermsWithSegmentOrd};
pub use col_merge_texts::merge_bytes_or_str_column;
pub use col_merge_values::{MergedColumnValues, RemappedTermOrdinalsValues};
