//! Reads CSV texts into files. Contracts see the table of a text by the definition.
#![tactic(auto)]

mod field_texts;
mod headings;
mod import;
mod import_column;
mod recorder;
mod records;
mod values;

pub use import::{import_csv, import_text};

#[cfg(test)]
mod tests;
