//! What stands at the end of a file: the keys of its columns, and its footer; and the serializer
//! that writes both behind the columns. Contracts see the bytes as the definitions read them.
//! Beside them the slots that merges join: a name with a category of types.
#![tactic(auto)]

mod column_key;
mod column_serializer;
mod column_type_category;
mod file_footer;
mod format_version;
mod key_table;
mod laws;
mod serializer;
mod slot_key;

pub use column_key::ColumnKey;
pub use column_serializer::ColumnSerializer;
pub use column_type_category::ColumnTypeCategory;
pub use file_footer::{FOOTER_NUM_BYTES, Footer, read_footer, serialize_footer};
pub use format_version::{VERSION_FOOTER_NUM_BYTES, footer, parse_footer};
pub use key_table::{KeyedLength, name_of, parse_key_table, take_all};
pub use laws::{categories_compare_as_their_places, keys_compare_by_name_then_code};
pub use serializer::ColumnarSerializer;
pub use slot_key::SlotKey;
