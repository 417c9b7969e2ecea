//! Reads the records of a text, and the rows that they spell.
ghost use Rattle.std.specs.Prelude.{◌≡◌, ◌<◌, ◌≤◌, ◌+◌, ◌-◌, ◌^◌, None, Some, OnOk, length};
ghost use Rattle.std.specs.List.{AllByRecursion};
ghost use Rattle.csv.specs.Reading.{expected_len, records, default_config, strip_bom};
ghost use Rattle.csv.specs.Records.{fields_of};
ghost use Rattle.col_csv_import.specs.Columns.{HasRoom};
ghost use Rattle.col_csv_import.specs.Made.{Makes};
ghost use Rattle.col_csv_import.specs.Readers.{IsReading, ReadsRecord, TakesAll};
ghost use Rattle.col_csv_import.specs.Readers.{left_of, refusal_of_kind};
ghost use Rattle.col_csv_import.specs.Rows.{with_row};

use crate::field_texts::{field_at, is_row_number_at};
use crate::import_column::ImportColumn;
use col_common::{DocId, RowId};
use col_csv::CsvError;
use csv::{ByteRecord, ErrorKind, Reader, ReaderBuilder};
use std::alloc::Global;

/// A reader of the records of a text, of which none is a header to it.
pub(crate) fn reader_of(alloc: Global, text: &[u8]) -> Reader<&[u8]>
    ensures reading { IsReading result }
    ensures left { left_of result ≡ records default_config (strip_bom text.now) }
    ensures many { length (left_of result) ≤ length text.now }
    ensures first { expected_len result ≡ None }
{
    ReaderBuilder::new()
        .has_headers(false)
        .from_reader(alloc, text)
}

/// Reads the next record; none at the end. One of another length than the first is no record of
/// CSV. A text in memory refuses a read for want of memory alone.
pub(crate) fn read_next(
    reader: &mut Reader<&[u8]>,
    fields: &mut ByteRecord,
) -> Result<bool, CsvError>
    requires { IsReading reader.old }
    ensures { ReadsRecord reader.old reader.new (fields_of fields.new) result }
{
    match reader.read_byte_record(fields) {
        Ok(found) => Ok(found),
        Err(error) => Err(refusal_of(error.kind())),
    }
}

// Why a record isn't read.
fn refusal_of(kind: &ErrorKind) -> CsvError
    ensures { result ≡ refusal_of_kind kind.now }
{
    match kind {
        ErrorKind::UnequalLengths { .. } => CsvError::BadCsv,
        _ => CsvError::OutOfMemory,
    }
}

/// Reads the records that are left into columns, a row each, and says how many they are.
pub(crate) fn take_records(
    alloc: Global,
    reader: &mut Reader<&[u8]>,
    fields: &mut ByteRecord,
    columns: &mut [ImportColumn],
) -> Result<RowId, CsvError>
    requires reading { IsReading reader.old }
    requires width { expected_len reader.old ≡ Some (length (fields_of fields.old)) }
    requires few { length (left_of reader.old) < 2 ^ 32 - 1 }
    requires empty { AllByRecursion (HasRoom 0) columns.old }
    ensures { TakesAll (length (fields_of fields.old)) (left_of reader.old) columns.old columns.new
        result }
{
    let mut bytes = Vec::new(alloc);
    for row in 0..u32::MAX {
        if !read_next(reader, fields)? {
            return Ok(row);
        }
        take_record(columns, row, fields, &mut bytes)?;
    }
    // That fewer records are left than rows are counted.
    unreachable!()
}

// Takes the record of a row, each field behind the row's number into its column.
fn take_record(
    columns: &mut [ImportColumn],
    row: DocId,
    fields: &ByteRecord,
    bytes: &mut Vec<u8>,
) -> Result<(), CsvError>
    requires few { row < 2 ^ 32 - 1 }
    requires room { AllByRecursion (HasRoom row) columns.old }
    ensures taken { Makes (λ _. columns.new) result
        (with_row (length (fields_of fields.now)) row (fields_of fields.now) columns.old) }
    ensures room { OnOk result (AllByRecursion (HasRoom (row + 1)) columns.new) }
{
    if !is_row_number_at(fields, row) {
        return Err(CsvError::BadCsv);
    }
    for place in 0..columns.len() {
        let field = field_at(fields, place + 1);
        columns[place].take_field(row, field, bytes)?;
    }
    Ok(())
}
