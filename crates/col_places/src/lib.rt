//! Rows of a table that are alive, and those of them that have a value of a range: their places
//! among all rows alive.
#![tactic(auto)]

mod alive;
mod bits;
mod dropping;
mod ends;
mod places;
mod walk;

pub use alive::Alive;
pub use places::push_places;
