//! Scripts of a set: segments that are added, rows that are dropped, compactions and lookups, line
//! by line. Contracts see what the definitions make of the same bytes.
#![tactic(auto)]

mod draft;
mod ids;
mod script;
mod set_line;
mod step;
#[cfg(test)]
mod tests;

pub use script::parse_set_script;
pub use step::{Lookup, Step};
