//! How many bytes a column takes, and its dictionary apart.
ghost use Rattle.std.specs.Prelude.{◌≡◌, ◌-◌, Some, None, if◌then◌else◌};
ghost use Rattle.col_dynamic.specs.Dynamic.{type_of, content_of};
ghost use Rattle.col_model.specs.ColumnType.{has_terms};
ghost use Rattle.col_model.specs.Limits.{dictionary_length};
ghost use Rattle.col_dynamic_open.specs.Contents.{usage_of};

use col_common::ByteCount;
use col_dynamic::{ColumnSpaceUsage, DynamicColumn};

/// How many of a column's bytes are those of its dictionary, and how many are not.
pub fn space_usage_of(column: &DynamicColumn, num_bytes: u64) -> ColumnSpaceUsage
    ensures { result ≡ usage_of num_bytes (type_of column.now) (content_of column.now) }
{
    let dictionary_num_bytes = dictionary_num_bytes(column);
    match dictionary_num_bytes {
        Some(terms_num_bytes) => ColumnSpaceUsage::new(
            ByteCount::from(num_bytes.saturating_sub(terms_num_bytes)),
            Some(ByteCount::from(terms_num_bytes)),
        ),
        None => ColumnSpaceUsage::new(ByteCount::from(num_bytes), None),
    }
}

// The bytes of the dictionary, where the column has one.
fn dictionary_num_bytes(column: &DynamicColumn) -> Option<u64>
    ensures { result ≡ (if has_terms (type_of column.now)
        then Some (dictionary_length (content_of column.now).terms) else None) }
{
    match column {
        DynamicColumn::Bytes(column) => Some(column.dictionary().num_bytes()),
        DynamicColumn::Str(column) => Some(column.dictionary().num_bytes()),
        _ => None,
    }
}
