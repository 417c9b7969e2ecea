//! The writer of a file: values by document and column name. Contracts see what was recorded.
#![tactic(auto)]

mod writer;

pub use col_writer_columns::{
    ColumnOperation, ColumnWriter, CompatibleNumericalTypes, NumericalColumnWriter, Operations,
    StrOrBytesColumnWriter,
};
pub use writer::ColumnarWriter;
