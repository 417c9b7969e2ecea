//! Merges the terms of several columns: their terms in one order, and the place there of each term
//! of a column. Contracts see a merge as the terms that are still to come. A leaf: merges of
//! columns take terms by their ids, and call nothing of this crate.
#![tactic(auto)]

mod matching_segments;
mod term_merger;
mod term_ord_mapping;
mod terms_with_segment_ord;

pub use matching_segments::MatchingSegments;
pub use term_merger::TermMerger;
pub use term_ord_mapping::compute_merged_term_ord_mapping;
pub use terms_with_segment_ord::TermsWithSegmentOrd;
