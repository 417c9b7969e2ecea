//! Makes the records of a table.
ghost use Rattle.std.specs.Prelude.{◌≡◌, ◌∷◌, [], decimal, map, OnOk};
ghost use Rattle.col_csv.specs.Csv.{field_of, header_fields, heading, row_fields};
ghost use Rattle.col_csv_export.specs.Putting.{AddsFields, HasFields};
ghost use Rattle.col_model.specs.Lookup.{row_of};
ghost use Rattle.col_opened.specs.Opened.{column_of};
ghost use Rattle.col_dynamic.specs.Dynamic.{type_of, content_of};

use crate::fields::push_field;
use crate::value_texts::push_number;
use col_opened::OpenColumn;
use csv::ByteRecord;
use std::alloc::{AllocError, Global};

// Makes the first record: a mark, and the heading of each column.
pub(crate) fn fill_header(
    columns: &[OpenColumn],
    field: &mut Vec<u8>,
    fields: &mut ByteRecord,
) -> Result<(), AllocError>
    ensures { OnOk result (HasFields fields.new (header_fields (map column_of columns.now))) }
{
    fields.clear();
    fields.push_field(b"#")?;
    for named in columns {
        add_heading(named, field, fields)?;
    }
    Ok(())
}

// Adds the heading of a column, which is made in the memory of a field.
fn add_heading(
    named: &OpenColumn,
    field: &mut Vec<u8>,
    fields: &mut ByteRecord,
) -> Result<(), AllocError>
    ensures { OnOk result
        (AddsFields fields.old fields.new (heading (column_of named.now) ∷ [])) }
{
    field.clear();
    field.extend_from_slice(named.column.column_type().word().as_bytes())?;
    field.push(b':')?;
    field.extend_from_slice(named.name.as_bytes())?;
    fields.push_field(field)
}

// Makes the record of a row: its number, and a field for each column.
pub(crate) fn fill_row(
    alloc: Global,
    columns: &[OpenColumn],
    row: u32,
    field: &mut Vec<u8>,
    fields: &mut ByteRecord,
) -> Result<(), AllocError>
    ensures { OnOk result (HasFields fields.new (row_fields (map column_of columns.now) row)) }
{
    fields.clear();
    add_row_number(row, field, fields)?;
    for named in columns {
        add_value(alloc, named, row, field, fields)?;
    }
    Ok(())
}

// Adds the number of a row.
fn add_row_number(row: u32, field: &mut Vec<u8>, fields: &mut ByteRecord) -> Result<(), AllocError>
    ensures { OnOk result (AddsFields fields.old fields.new (decimal row ∷ [])) }
{
    field.clear();
    push_number(field, row as u64)?;
    fields.push_field(field)
}

// Adds the field of a column.
fn add_value(
    alloc: Global,
    named: &OpenColumn,
    row: u32,
    field: &mut Vec<u8>,
    fields: &mut ByteRecord,
) -> Result<(), AllocError>
    ensures { OnOk result (AddsFields fields.old fields.new
        (field_of (type_of named.now.column) (row_of (content_of named.now.column) row) ∷ [])) }
{
    field.clear();
    push_field(alloc, &named.column, row, field)?;
    fields.push_field(field)
}
