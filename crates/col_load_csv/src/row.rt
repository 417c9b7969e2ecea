//! Records as documents.
ghost use Rattle.std.specs.Prelude.{◌≡◌, map, IfOk, length};
ghost use Rattle.std.specs.List.{zip};
ghost use Rattle.std.specs.Result.{is_ok};
ghost use Rattle.csv.specs.Records.{fields_of};
ghost use Rattle.col_documents.specs.Documents.{refused};
ghost use Rattle.col_documents.specs.Read.{IsRefusedAs, PutsFields, ReadsFields};
ghost use Rattle.col_load_csv.specs.Columns.{column_field, column_fields, document_of};
ghost use Rattle.col_load_csv.specs.Read.{column_read};

use crate::column::Column;
use crate::kind::Kind;
use crate::records::field_at;
use crate::value::{text_of, value_of};
use col_documents::{DocumentError, Field, Form, Reason, Refusal, ValueError, push_field};
use csv::ByteRecord;
use std::alloc::{AllocError, Global};

/// The fields of the document that a record is.
///
/// # Errors
///
/// Refused, with the first field whose value isn't taken, or an empty path where the record has
/// more or fewer fields than there are columns.
pub(crate) fn read_record(
    alloc: Global,
    columns: &[Column],
    row: &ByteRecord,
) -> Result<Vec<Field>, DocumentError>
    ensures { ReadsFields result
        (document_of (map column_read columns.now) (fields_of row.now)) }
{
    if row.len() != columns.len() {
        return Err(DocumentError::Refused(Refusal {
            path: String::new(alloc),
            reason: Reason::Width,
        }));
    }
    let mut fields = Vec::new(alloc);
    push_fields(alloc, columns, row, &mut fields)?;
    Ok(fields)
}

// Puts the values of a record's fields behind others.
fn push_fields(
    alloc: Global,
    columns: &[Column],
    row: &ByteRecord,
    fields: &mut Vec<Field>,
) -> Result<(), DocumentError>
    requires { length (fields_of row.now) ≡ length columns.now }
    ensures { PutsFields fields.old.items fields.new.items result
        (column_fields (zip (map column_read columns.now) (fields_of row.now))) }
{
    for place in 0..columns.len() {
        let field = field_at(row, place);
        push_value(alloc, &columns[place], field, fields)?;
    }
    Ok(())
}

// Puts the value of a field behind others, unless it is empty.
fn push_value(
    alloc: Global,
    column: &Column,
    field: &[u8],
    fields: &mut Vec<Field>,
) -> Result<(), DocumentError>
    ensures { PutsFields fields.old.items fields.new.items result
        (column_field (column_read column.now) field.now) }
{
    if field.is_empty() {
        return Ok(());
    }
    let path = String::from_str(alloc, column.name.as_str())?;
    push_field(
        path,
        value_of(alloc, column.form, column.kind, field),
        fields,
    )
}

/// Whether a record is a document.
pub(crate) fn is_document(
    alloc: Global,
    columns: &[Column],
    row: &ByteRecord,
) -> Result<bool, AllocError>
    ensures { IfOk result (λ taken. taken
        ≡ is_ok (document_of (map column_read columns.now) (fields_of row.now))) }
{
    if row.len() != columns.len() {
        return Ok(false);
    }
    are_values(alloc, columns, row)
}

// Whether each field of a record is empty or has a value.
fn are_values(alloc: Global, columns: &[Column], row: &ByteRecord) -> Result<bool, AllocError>
    requires { length (fields_of row.now) ≡ length columns.now }
    ensures { IfOk result (λ taken. taken
        ≡ is_ok (column_fields (zip (map column_read columns.now) (fields_of row.now)))) }
{
    for place in 0..columns.len() {
        let field = field_at(row, place);
        if !is_value(alloc, &columns[place], field)? {
            return Ok(false);
        }
    }
    Ok(true)
}

// Whether a field is empty or has a value.
fn is_value(alloc: Global, column: &Column, field: &[u8]) -> Result<bool, AllocError>
    ensures { IfOk result
        (λ taken. taken ≡ is_ok (column_field (column_read column.now) field.now)) }
{
    if field.is_empty() {
        return Ok(true);
    }
    if matches!(column.form, Form::Plain) && matches!(column.kind, Kind::Texts) {
        return Ok(text_of(field).is_some());
    }
    match value_of(alloc, column.form, column.kind, field) {
        Ok(_) => Ok(true),
        Err(ValueError::OutOfMemory) => Err(AllocError),
        Err(ValueError::Refused(_)) => Ok(false),
    }
}
