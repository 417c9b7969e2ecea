//! The store as one crate to import: the names that the Rust crate has at its root stand here, and
//! the others by subject in the modules. Every name is that of the crate that makes it, with its
//! contract; `specs/` gives the definitions again that contracts of the names at the root cite, and
//! those of facets and queries.
#![tactic(auto)]

pub mod bits;
pub mod column_index;
pub mod column_values;
pub mod columns;
pub mod dictionaries;
pub mod facets;
pub mod files;
pub mod merging;
pub mod outside;
pub mod queries;
pub mod recording;
pub mod sets;

pub use col_common::{
    ByteCount, ColumnarError, DateTime, DocId, InvalidData, Ipv6Addr, Iterable, RowAddr, RowId,
    Walk,
};
pub use col_csv::CsvError;
pub use col_csv_export::export_csv;
pub use col_csv_import::{import_csv, import_text};
pub use col_dynamic::{
    BytesColumn, Column, ColumnSpaceUsage, ColumnType, DynamicColumn, HasAssociatedColumnType,
    IpColumn, NumColumn, NumericalType, NumericalValue, StrColumn,
};
pub use col_file::{ColumnIter, ColumnarReader, DynamicColumnHandle, check_columns, read_column};
pub use col_index::{CURRENT_VERSION, Cardinality, ColumnIndex, Version};
pub use col_merge::{StackFromReaders, merge_columnar};
pub use col_merge_terms::compute_merged_term_ord_mapping;
pub use col_order::{MergeRowOrder, ShuffleMergeOrder, StackMergeOrder};
pub use col_sort::sorted_order;
pub use col_terms::{Dictionary, Streamer, TermOrdHit};
pub use col_upgrade::upgrade;
pub use col_values::{
    ColumnValues, EmptyColumnValues, MonotonicallyMappableToU64, MonotonicallyMappableToU128,
};
pub use col_writer::ColumnarWriter;
