//! Tables as CSV, written from open files. Contracts see the text of the definition.
#![tactic(auto)]

mod blocks;
mod export;
mod fields;
mod output;
mod records;
mod term_texts;
mod value_texts;

pub use export::export_csv;
