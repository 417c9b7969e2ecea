//! Reports on open files: columns of every type, and the answers to lookups, facets and queries.
//! Contracts see the bytes that a report appends as the text of the definition's lines.
#![tactic(auto)]

mod answers;
mod cells;
mod check;
mod count_cells;
mod counts;
mod docs;
mod found;
mod lines;
mod lookups;
mod names;
mod questions;
mod report;
mod row_ends;
mod rows;
mod term_cells;
mod words;

pub use check::report_on_check;
pub use report::{Report, open_report, write_report};
