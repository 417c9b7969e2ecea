//! CSV with a header line into files: a document a record. Contracts see the documents of records
//! by the definition.
#![tactic(auto)]

mod column;
mod decide;
mod header;
mod kind;
mod load;
mod records;
mod row;
mod seen;
mod take;
mod value;

pub use load::load_csv;

#[cfg(test)]
mod tests;
