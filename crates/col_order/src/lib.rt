//! Which rows a merge takes, in which order. Contracts see an order as the list of the rows that it
//! picks.
#![tactic(auto)]

mod merge_row_order;
mod shuffle;
mod stack;

pub use merge_row_order::{MergeRowOrder, orders_are_picks};
pub use shuffle::ShuffleMergeOrder;
pub use stack::StackMergeOrder;
