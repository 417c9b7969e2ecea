//! Writes what was recorded: the column of each entry, its tests before the first byte, and the
//! file of a table. Contracts see what the definitions write of the entries.
#![tactic(auto)]

mod checks;
mod entry_column;
mod named_entry;
mod numbers;
mod plain;
mod table;
mod texts;

pub use entry_column::EntryColumn;
pub use named_entry::NamedEntry;
pub use table::serialize_table;
