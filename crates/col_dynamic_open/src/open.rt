//! Opens columns of the type that is told.
ghost use Rattle.std.specs.Prelude.{◌≡◌, IfOk};
ghost use Rattle.col_common.specs.Decoding.{Decodes};
ghost use Rattle.col_dynamic.specs.Dynamic.{type_of, content_of};
ghost use Rattle.col_dynamic.specs.Versions.{version_number};
ghost use Rattle.col_model.specs.Column.{column};
ghost use Rattle.col_types.specs.Kinds.{kind_of};

use bytes::Bytes;
use col_common::{ColumnarError, DateTime, RowId};
use col_dynamic::{
    ColumnType, DynamicColumn, Version, open_column_bytes, open_column_str, open_column_u64,
    open_column_u128,
};
use std::alloc::Global;

/// Reads a column of so many rows of a type. It answers InvalidData exactly where the bytes are no
/// column of that type, version and row count.
pub fn open_column(
    alloc: Global,
    column_type: ColumnType,
    bytes: Bytes,
    format_version: Version,
    num_rows: RowId,
) -> Result<DynamicColumn, ColumnarError>
    ensures column { Decodes content_of result
        (column bytes (kind_of column_type) (version_number format_version) num_rows) }
    ensures kind { IfOk result (λ c. type_of c ≡ kind_of column_type) }
{
    match column_type {
        ColumnType::I64 => {
            Ok(open_column_u64::<i64>(alloc, bytes, format_version, num_rows)?.into())
        }
        ColumnType::U64 => {
            Ok(open_column_u64::<u64>(alloc, bytes, format_version, num_rows)?.into())
        }
        ColumnType::Bytes => Ok(open_column_bytes(alloc, bytes, format_version, num_rows)?.into()),
        ColumnType::Str => Ok(open_column_str(alloc, bytes, format_version, num_rows)?.into()),
        ColumnType::Bool => {
            Ok(open_column_u64::<bool>(alloc, bytes, format_version, num_rows)?.into())
        }
        ColumnType::IpAddr => Ok(open_column_u128(alloc, bytes, format_version, num_rows)?.into()),
        ColumnType::DateTime => {
            Ok(open_column_u64::<DateTime>(alloc, bytes, format_version, num_rows)?.into())
        }
    }
}
