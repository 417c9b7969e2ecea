//! The script that a number makes. Contracts see its bytes.
#![tactic(auto)]

mod documents;
mod draws;
mod generated;
mod lines;
mod lookups;
mod text;

pub use generated::generated_script;
