//! Writes the columns that merges make: for one name and category, the column of the rows that an
//! order picks from the columns of segments.
#![tactic(auto)]

mod addresses;
mod cell_counts;
mod laws;
mod merged_index;
mod numbers;
mod texts;

pub use addresses::join_addresses;
pub use laws::{merged_content_is_joined, picked_content_is_joined};
pub use numbers::join_numbers;
pub use texts::join_texts;
