//! Files in memory with the rows that are alive in each: a list of tables with rows, to which
//! changes are made, and which is made one table of these rows.
#![tactic(auto)]

mod compacting;
mod finding;
mod held;
mod kinds;
mod opening;
mod rows;
mod segment;
mod segments;

pub use kinds::{ADDED, DROPPED, REPLACED};
pub use rows::id_bytes;
pub use segment::Segment;
pub use segments::{Compacted, Segments};
