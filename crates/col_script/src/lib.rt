//! Scripts: the segments, required columns, order and questions that lines say. Contracts see what
//! the definitions make of the same bytes.
#![tactic(auto)]

mod draft;
mod script;
mod segment;

pub use script::{Script, parse_script, split_line};
pub use segment::Segment;
