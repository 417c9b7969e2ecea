//! Columns that record, of which a writer is made.

pub use col_writer::{
    ColumnOperation, ColumnWriter, CompatibleNumericalTypes, NumericalColumnWriter, Operations,
    StrOrBytesColumnWriter,
};
