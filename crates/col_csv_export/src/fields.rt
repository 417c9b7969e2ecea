//! Makes the fields of rows.
ghost use Rattle.std.specs.Prelude.{◌≡◌, ◌++◌, map, OnOk};
ghost use Rattle.col_column.specs.Columns.{row_at, rows_of_values};
ghost use Rattle.col_csv.specs.Csv.{field_of};
ghost use Rattle.col_dynamic.specs.Dynamic.{type_of, content_of};
ghost use Rattle.col_model.specs.ColumnType as types;
ghost use Rattle.col_model.specs.Lookup.{row_of};
ghost use Rattle.col_text.specs.Texts.{texts_content};

use crate::term_texts::{BytesTexts, StrTexts};
use crate::value_texts::{PlainTexts, ValueTexts};
use col_column::Column;
use col_dynamic::DynamicColumn;
use col_text::{BytesColumn, StrColumn};
use col_values::ColumnValues;
use std::alloc::{AllocError, Global};

// Appends the field of a row of a column; a row that the column doesn't have has an empty one.
pub(crate) fn push_field(
    alloc: Global,
    column: &DynamicColumn,
    row: u32,
    field: &mut Vec<u8>,
) -> Result<(), AllocError>
    ensures { OnOk result (field.new.items ≡ field.old.items
        ++ field_of (type_of column.now) (row_of (content_of column.now) row)) }
{
    match column {
        DynamicColumn::Bool(column) => push_first(alloc, column, row, &PlainTexts, field),
        DynamicColumn::I64(column) => push_first(alloc, column, row, &PlainTexts, field),
        DynamicColumn::U64(column) => push_first(alloc, column, row, &PlainTexts, field),
        DynamicColumn::IpAddr(column) => push_first(alloc, column, row, &PlainTexts, field),
        DynamicColumn::DateTime(column) => push_first(alloc, column, row, &PlainTexts, field),
        DynamicColumn::Bytes(column) => push_bytes(alloc, column, row, field),
        DynamicColumn::Str(column) => push_str(alloc, column, row, field),
    }
}

// The same of a column of byte strings.
fn push_bytes(
    alloc: Global,
    column: &BytesColumn,
    row: u32,
    field: &mut Vec<u8>,
) -> Result<(), AllocError>
    ensures { OnOk result (field.new.items ≡ field.old.items
        ++ field_of types.bytes (row_of (texts_content column.now) row)) }
{
    let texts = BytesTexts {
        dictionary: column.dictionary(),
    };
    push_first(alloc, column.ords(), row, &texts, field)
}

// The same of a column of texts.
fn push_str(
    alloc: Global,
    column: &StrColumn,
    row: u32,
    field: &mut Vec<u8>,
) -> Result<(), AllocError>
    ensures { OnOk result (field.new.items ≡ field.old.items
        ++ field_of types.str (row_of (texts_content column.now) row)) }
{
    let texts = StrTexts {
        dictionary: column.dictionary(),
    };
    push_first(alloc, column.bytes_column().ords(), row, &texts, field)
}

// Appends the field of a row by its first value: nothing where it has none.
fn push_first<T: PartialOrd + Copy, V: ColumnValues<T>, P: ValueTexts<T>>(
    alloc: Global,
    column: &Column<T, V>,
    row: u32,
    texts: &P,
    field: &mut Vec<u8>,
) -> Result<(), AllocError>
    ensures { OnOk result (field.new.items ≡ field.old.items ++ field_of P.kind
        (row_at (map (map (P.cell texts.now)) (rows_of_values V.values column.now)) row)) }
{
    if column.num_docs() <= row {
        return Ok(());
    }
    let Some(value) = column.first(row) else {
        return Ok(());
    };
    field.push(b'=')?;
    texts.push(alloc, value, field)
}
