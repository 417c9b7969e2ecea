//! Writes a column again.
ghost use Rattle.std.specs.Prelude.{◌≡◌, ◌-◌, ◌≤◌, true, drop, length, is_some, IfOk, IfErr, OnOk};
ghost use Rattle.col_common.specs.Decoding.{Refuses};
ghost use Rattle.col_common.specs.declared.error.ColumnarError.TheVariants as refusals;
ghost use Rattle.col_dynamic_open.specs.Contents.{DecodesTo};
ghost use Rattle.col_index.specs.Versions.{version_number};
ghost use Rattle.col_model.specs.Column.{column};
ghost use Rattle.col_model.specs.ColumnType.{has_terms};
ghost use Rattle.col_model.specs.Version.{current_version};
ghost use Rattle.col_types.specs.Kinds.{kind_of};
ghost use Rattle.col_upgrade.specs.Again.{HasTexts, AreTexts, StandsForContent};

use crate::numbers::{push, push_numbers};
use bytes::Bytes;
use col_common::{Buffer, ColumnarError, RowId, U32_NUM_BYTES};
use col_dynamic_open::open_column;
use col_index::Version;
use col_text::cut_dictionary;
use col_types::ColumnType;
use std::alloc::Global;

// The bytes of a column of so many rows, in the current version. It answers InvalidData exactly
// where the bytes are no column of that type, version and row count.
pub(crate) fn column_again(
    alloc: Global,
    column_type: ColumnType,
    bytes: Bytes,
    format_version: Version,
    num_rows: RowId,
) -> Result<Buffer, ColumnarError>
    ensures { DecodesTo (StandsForContent (kind_of column_type) num_rows) result
        (column bytes (kind_of column_type) (version_number format_version) num_rows) }
{
    test_column(alloc, column_type, &bytes, format_version, num_rows)?;
    rewritten(alloc, column_type, bytes, format_version, num_rows)
}

// That the bytes are a column: it is opened, and let go.
fn test_column(
    alloc: Global,
    column_type: ColumnType,
    bytes: &Bytes,
    format_version: Version,
    num_rows: RowId,
) -> Result<(), ColumnarError>
    ensures ok { OnOk result (is_some
        (column bytes.now (kind_of column_type) (version_number format_version) num_rows)
        ≡ true) }
    ensures err { IfErr result (λ e. Refuses e
        (column bytes.now (kind_of column_type) (version_number format_version) num_rows)) }
{
    let shared = bytes.clone()?;
    let column = open_column(alloc, column_type, shared, format_version, num_rows)?;
    drop(column);
    Ok(())
}

// The bytes of a column that can be read, in the current version.
fn rewritten(
    alloc: Global,
    column_type: ColumnType,
    bytes: Bytes,
    format_version: Version,
    num_rows: RowId,
) -> Result<Buffer, ColumnarError>
    requires { is_some (column bytes (kind_of column_type) (version_number format_version) num_rows)
        ≡ true }
    ensures ok { IfOk result (λ made. column made (kind_of column_type) current_version num_rows
        ≡ column bytes (kind_of column_type) (version_number format_version) num_rows) }
    ensures err { IfErr result (λ e. e ≡ refusals.OutOfMemory) }
{
    if has_terms(column_type) {
        return texts_again(alloc, bytes, format_version, num_rows);
    }
    let mut made = Buffer::new(alloc);
    push_numbers(alloc, bytes, format_version, num_rows, &mut made)?;
    Ok(made)
}

// Whether columns of the type have terms.
fn has_terms(column_type: ColumnType) -> bool
    ensures { result ≡ has_terms (kind_of column_type) }
{
    match column_type {
        ColumnType::Bytes | ColumnType::Str => true,
        ColumnType::I64 | ColumnType::U64 | ColumnType::Bool => false,
        ColumnType::IpAddr | ColumnType::DateTime => false,
    }
}

// The bytes of a column of terms that can be read, in the current version: the dictionary as it
// stands, and the ordinals.
fn texts_again(
    alloc: Global,
    bytes: Bytes,
    format_version: Version,
    num_rows: RowId,
) -> Result<Buffer, ColumnarError>
    requires { HasTexts bytes (version_number format_version) num_rows }
    ensures ok { IfOk result (λ made.
        AreTexts made bytes (version_number format_version) num_rows) }
    ensures err { IfErr result (λ e. e ≡ refusals.OutOfMemory) }
{
    let shared = bytes.clone()?;
    let (dictionary, ords) = cut_dictionary(shared)?;
    let mut made = Buffer::new(alloc);
    push(&mut made, dictionary.as_slice())?;
    push_numbers(alloc, ords, format_version, num_rows, &mut made)?;
    push(&mut made, dictionary_len(bytes.as_slice()))?;
    Ok(made)
}

// The last bytes of a column of terms, which say how many bytes its dictionary takes.
fn dictionary_len(bytes: &[u8]) -> &[u8]
    requires { 4 ≤ length bytes.now }
    ensures { result.now ≡ drop (length bytes.now - 4) bytes.now }
{
    &bytes[bytes.len() - U32_NUM_BYTES..]
}
