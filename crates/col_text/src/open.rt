//! Reads the bytes of columns of terms.
ghost use Rattle.std.specs.Prelude.{◌≡◌, length};
ghost use Rattle.std.specs.Int.{w32, from_le_bytes};
ghost use Rattle.col_common.specs.Ascending.{are_below};
ghost use Rattle.col_common.specs.Decoding.{Decodes};
ghost use Rattle.col_common.specs.Reading.{parts_by_first};
ghost use Rattle.col_column.specs.Versions.{version_number};
ghost use Rattle.col_model.specs.Column.{column};
ghost use Rattle.col_model.specs.ColumnType as types;
ghost use Rattle.col_column.specs.NumValues.{num_values_of};
ghost use Rattle.col_text.specs.Texts.{texts_content};

use crate::dictionary_encoded::{BytesColumn, StrColumn};
use bytes::Bytes;
use col_column::{NumColumn, Version, open_term_ords};
use col_common::{ColumnarError, RowId, U32_NUM_BYTES};
use col_terms::Dictionary;
use col_values::ColumnValues;
use std::alloc::Global;

/// Reads a column of so many rows of byte strings. It answers InvalidData exactly where the bytes
/// are no such column of that version and row count.
pub fn open_column_bytes(
    alloc: Global,
    bytes: Bytes,
    format_version: Version,
    num_rows: RowId,
) -> Result<BytesColumn, ColumnarError>
    ensures { Decodes texts_content result
        (column bytes types.bytes (version_number format_version) num_rows) }
{
    let (terms, ords) = cut_dictionary(bytes)?;
    let dictionary = Dictionary::from_bytes(terms)?;
    let ords = open_term_ords(alloc, ords, format_version, num_rows)?;
    if !are_ordinals(&dictionary, &ords) {
        return Err(ColumnarError::InvalidData);
    }
    Ok(BytesColumn::new(dictionary, ords))
}

/// Reads a column of so many rows of texts; that terms are texts is told when they are read.
pub fn open_column_str(
    alloc: Global,
    bytes: Bytes,
    format_version: Version,
    num_rows: RowId,
) -> Result<StrColumn, ColumnarError>
    ensures { Decodes texts_content result
        (column bytes types.str (version_number format_version) num_rows) }
{
    Ok(StrColumn::wrap(open_column_bytes(alloc, bytes, format_version, num_rows)?))
}

// Whether each value is the ordinal of a term, which the greatest one tells.
fn are_ordinals(dictionary: &Dictionary, ords: &NumColumn<u64>) -> bool
    ensures { result
        ≡ are_below (length dictionary.now) (num_values_of ords.now.values) }
{
    let values = ords.values();
    values.num_vals() == 0 || values.max_value() < dictionary.num_terms() as u64
}

/// The dictionary and the bytes behind it, behind which the dictionary's length stands.
#[tactic(auto, unfolding(col_common::specs::Reading::parts_by_first))]
pub fn cut_dictionary(bytes: Bytes) -> Result<(Bytes, Bytes), ColumnarError>
    ensures { Decodes (λ p. (p.0, p.1)) result (parts_by_first w32 bytes) }
{
    let mut parts = bytes;
    if parts.len() < U32_NUM_BYTES {
        return Err(ColumnarError::InvalidData);
    }
    let first_len = parts.split_off(parts.len() - U32_NUM_BYTES)?;
    let first_len = dictionary_len(first_len.as_slice()) as usize;
    if first_len > parts.len() {
        return Err(ColumnarError::InvalidData);
    }
    let first = parts.split_to(first_len)?;
    Ok((first, parts))
}

// The number that four bytes spell, the lowest first.
fn dictionary_len(bytes: &[u8]) -> u32
    requires { length bytes.now ≡ U32_NUM_BYTES }
    ensures { result ≡ from_le_bytes w32 bytes.now }
{
    u32::from_le_bytes([bytes[0], bytes[1], bytes[2], bytes[3]])
}
