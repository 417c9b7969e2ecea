//! A set of segments on a disk: files with the rows that are alive in each, which survive a crash.
#![tactic(auto)]

mod change;
mod loading;
mod parts;
mod set;
mod staging;
mod writing;

pub use set::SegmentSet;
pub use writing::write_bytes;

#[cfg(test)]
mod tests;
