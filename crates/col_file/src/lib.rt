//! Opens files, lists their columns, and opens these by their handles. Contracts see the file with
//! what its end says, and a handle as a type and a place in the file.
#![tactic(auto)]

mod check;
mod column_entry;
mod column_iter;
mod columnar_keys;
mod dynamic_column_handle;
mod entries;
mod laws;
mod open;
mod path;
mod reader;
mod reading;

pub use check::check_columns;
pub use column_iter::ColumnIter;
pub use dynamic_column_handle::DynamicColumnHandle;
pub use laws::count_columns;
pub use reader::{ColumnarReader, files_are_read, read_column};
