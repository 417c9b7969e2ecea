//! Laws about files that are merged in brackets: of segments that were written apart, and of any
//! files; about stacks and their facets, and about sorted merges. Definitions and laws stand in
//! `specs/`.
#![tactic(auto)]

mod laws;

pub use laws::{
    facets_of_stacks_are_summed, files_merge_in_any_bracketing, files_of_runs_are_made,
    files_of_runs_merge_to_one, merged_files_are_whole, merging_at_once_is_enough,
    neighbours_without_the_column_are_one, scripts_stack_files, segments_are_made,
    segments_merge_to_one, sorted_merges_are_in_order, sorted_orders_name_each_row,
    ties_stand_as_they_were,
};
