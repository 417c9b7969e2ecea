//! What a script and inputs come to: one merged file, and a report on it; a report on a check of
//! one input; and an input written again, with a report. Contracts see what the definitions make
//! of them.
#![tactic(auto)]

mod checking;
mod in_memory;
mod inputs;
mod merging;
mod order;
mod part;
mod segments;
mod upgrading;

pub use checking::check_and_report;
pub use merging::{FileAndReport, merge_and_report};
pub use part::Part;
pub use upgrading::upgrade_and_report;
