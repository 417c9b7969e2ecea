//! The steps of a set's script, one after another: segments that are added, rows that are dropped,
//! compactions and lookups. Contracts see the tables after each step, and the lines of the lookups.
#![tactic(auto)]

mod adding;
mod ends;
mod finding;
mod lines;
mod steps;

pub use lines::push_rows;
pub use steps::run_steps;
