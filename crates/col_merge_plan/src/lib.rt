//! What a merge of files begins with: whether an order is one of the files' rows, which types are
//! required, the slots of all columns, and the segments of each slot. A slot is a name with a
//! category of types; contracts see it as the definition has it.
#![tactic(auto)]

mod counts;
mod required;
mod segments;
mod slots;

pub use counts::{is_order_of, row_counts};
pub use required::required_types;
pub use segments::{placed_slots, segments_of};
pub use slots::slots_of;
