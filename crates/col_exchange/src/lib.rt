//! Tables exchanged with CSV: one input written as a text, and a text written as a file, each with
//! a short report on the table. Contracts see what the definitions make of them.
#![tactic(auto)]

mod exporting;
mod importing;
mod reporting;

pub use exporting::{Exchanged, export_and_report};
pub use importing::import_and_report;
