//! Files column by column: the serializer that puts bytes under keys, categories of types, the end
//! of a file, and the bytes that names have between their parts.

pub use col_common::{JSON_END_OF_PATH, JSON_PATH_SEGMENT_SEP};
pub use col_keys::{
    ColumnSerializer, ColumnTypeCategory, ColumnarSerializer, VERSION_FOOTER_NUM_BYTES, footer,
    parse_footer,
};
