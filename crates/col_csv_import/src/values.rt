//! Records the values that texts spell.
ghost use Rattle.std.specs.Prelude.{◌≡◌};
ghost use Rattle.col_csv_import.specs.Columns.{IsOpen, TakesText};
ghost use Rattle.col_model.specs.Column.{signed_of};
ghost use Rattle.col_model.specs.ColumnType as types;
ghost use Rattle.col_types.specs.Cells.{bool_cell, unsigned_cell};
ghost use Rattle.col_writer_columns.specs.Columns.{text_entry, plain_entry};
ghost use Rattle.col_writer_columns.specs.Values.{time_cell};

use col_common::{DocId, Ipv6Addr};
use col_csv::CsvError;
use col_csv_fields::{
    address_spelled, bytes_spelled, flag_spelled, signed_spelled, unsigned_spelled,
};
use col_types::NumericalValue;
use col_values::MonotonicallyMappableToU64;
use col_writer_columns::{NumericalColumnWriter, PlainColumnWriter, StrOrBytesColumnWriter};

/// Records the signed number that a text spells.
pub(crate) fn take_signed(
    column: &mut NumericalColumnWriter,
    row: DocId,
    text: &[u8],
) -> Result<(), CsvError>
    requires { IsOpen types.i64 row column.old }
    ensures { TakesText types.i64 row column.old column.new result text.now }
{
    let Some(number) = signed_spelled(text) else {
        return Err(CsvError::BadCsv);
    };
    column.record_numerical_value(row, NumericalValue::I64(number))?;
    Ok(())
}

/// Records the unsigned number that a text spells.
pub(crate) fn take_unsigned(
    column: &mut NumericalColumnWriter,
    row: DocId,
    text: &[u8],
) -> Result<(), CsvError>
    requires { IsOpen types.u64 row column.old }
    ensures { TakesText types.u64 row column.old column.new result text.now }
{
    let Some(number) = unsigned_spelled(text) else {
        return Err(CsvError::BadCsv);
    };
    column.record_numerical_value(row, NumericalValue::U64(number))?;
    Ok(())
}

/// Records the bytes that a text spells.
pub(crate) fn take_bytes(
    column: &mut StrOrBytesColumnWriter,
    row: DocId,
    text: &[u8],
    bytes: &mut Vec<u8>,
) -> Result<(), CsvError>
    requires { IsOpen types.bytes row (text_entry types.bytes column.old) }
    ensures { TakesText types.bytes row (text_entry types.bytes column.old)
        (text_entry types.bytes column.new) result text.now }
{
    let Ok(found) = bytes_spelled(text, bytes) else {
        return Err(CsvError::OutOfMemory);
    };
    if !found {
        return Err(CsvError::BadCsv);
    }
    column.record_bytes(row, bytes)?;
    Ok(())
}

/// Records a text.
pub(crate) fn take_text(
    column: &mut StrOrBytesColumnWriter,
    row: DocId,
    text: &[u8],
) -> Result<(), CsvError>
    requires { IsOpen types.str row (text_entry types.str column.old) }
    ensures { TakesText types.str row (text_entry types.str column.old)
        (text_entry types.str column.new) result text.now }
{
    column.record_bytes(row, text)?;
    Ok(())
}

/// Records the flag that a text names.
pub(crate) fn take_flag(
    column: &mut PlainColumnWriter<bool>,
    row: DocId,
    text: &[u8],
) -> Result<(), CsvError>
    requires { IsOpen types.bool row (plain_entry types.bool bool_cell column.old) }
    ensures { TakesText types.bool row (plain_entry types.bool bool_cell column.old)
        (plain_entry types.bool bool_cell column.new) result text.now }
{
    let Some(flag) = flag_spelled(text) else {
        return Err(CsvError::BadCsv);
    };
    column.record(row, flag)?;
    Ok(())
}

/// Records the address that a text spells.
pub(crate) fn take_address(
    column: &mut PlainColumnWriter<Ipv6Addr>,
    row: DocId,
    text: &[u8],
) -> Result<(), CsvError>
    requires { IsOpen types.ip row (plain_entry types.ip unsigned_cell column.old) }
    ensures { TakesText types.ip row (plain_entry types.ip unsigned_cell column.old)
        (plain_entry types.ip unsigned_cell column.new) result text.now }
{
    let Some(address) = address_spelled(text) else {
        return Err(CsvError::BadCsv);
    };
    column.record(row, address)?;
    Ok(())
}

/// Records the point in time of a text, in nanoseconds.
pub(crate) fn take_time(
    column: &mut PlainColumnWriter<u64>,
    row: DocId,
    text: &[u8],
) -> Result<(), CsvError>
    requires { IsOpen types.datetime row (plain_entry types.datetime time_cell column.old) }
    ensures { TakesText types.datetime row (plain_entry types.datetime time_cell column.old)
        (plain_entry types.datetime time_cell column.new) result text.now }
{
    let Some(nanoseconds) = signed_spelled(text) else {
        return Err(CsvError::BadCsv);
    };
    column.record(row, time_code(nanoseconds))?;
    Ok(())
}

// The code by which a column keeps so many nanoseconds.
#[inline]
fn time_code(nanoseconds: i64) -> u64
    ensures { signed_of result ≡ nanoseconds }
{
    nanoseconds.to_u64()
}
