//! Writes the column that a merge makes of one name and category: which segments keep a column
//! there, the type that these share, and the column of the rows that an order picks.
#![tactic(auto)]

mod joined_slot;
mod kept;
mod segment_parts;
mod segment_values;
mod shared_type;
mod texts;
mod told;

pub use joined_slot::join_slot;
pub use segment_values::{FromDynamic, segment_addresses, segment_numbers};
pub use shared_type::slot_type;
