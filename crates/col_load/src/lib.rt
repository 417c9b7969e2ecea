//! Documents in lines into files: an object in JSON a line, taken from a source by blocks.
//! Contracts see the documents of lines by the definition.
#![tactic(auto)]

mod from_source;
mod line_counts;
mod lines;
mod load_error;
mod loader;
mod reading;
mod rows;

pub use from_source::load;
pub use line_counts::LineCounts;
pub use load_error::LoadError;
pub use loader::Loader;
pub use rows::Rows;

#[cfg(test)]
mod tests;
