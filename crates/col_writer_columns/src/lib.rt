//! Columns that record: the values of each beside their documents, in order of recording. Contracts
//! see what was recorded.
#![tactic(auto)]

mod column_operation;
mod column_writer;
mod compatible_types;
mod laws;
mod numerical_column_writer;
mod plain_column_writer;
mod ranges;
mod sort_keys;
mod sort_order;
mod str_or_bytes_column_writer;
mod type_list;

pub use column_operation::{ColumnOperation, Operations};
pub use column_writer::ColumnWriter;
pub use compatible_types::CompatibleNumericalTypes;
pub use laws::count_operations;
pub use numerical_column_writer::NumericalColumnWriter;
pub use plain_column_writer::PlainColumnWriter;
pub use sort_order::{SortedDocs, is_past};
pub use str_or_bytes_column_writer::StrOrBytesColumnWriter;
pub use type_list::TypeList;
