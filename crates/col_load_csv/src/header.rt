//! The first record of a text, which has the names of columns.
ghost use Rattle.std.specs.Prelude.{◌≡◌, map, IfOk};
ghost use Rattle.csv.specs.Records.{fields_of};
ghost use Rattle.col_documents.specs.Forms.{named_form};
ghost use Rattle.col_load_csv.specs.Columns as definitions;
ghost use Rattle.col_load_csv.specs.Read.{column_read, columns_read};

use crate::column::Column;
use crate::kind::Kind;
use crate::records::field_at;
use col_documents::{Form, form_of};
use col_keys::name_of;
use csv::ByteRecord;
use std::alloc::{AllocError, Global};

/// The columns of the first record, before their fields are seen; none where a heading is no name.
pub(crate) fn columns_of(
    alloc: Global,
    forms: &[(String, Form)],
    header: &ByteRecord,
) -> Result<Option<Vec<Column>>, AllocError>
    ensures { IfOk result (λ found. columns_read found
        ≡ definitions.columns_of (map named_form forms.now) (fields_of header.now)) }
{
    let mut columns = Vec::new(alloc);
    for place in 0..header.len() {
        let Some(name) = name_of(field_at(header, place)) else {
            return Ok(None);
        };
        columns.push(column_of(alloc, forms, name)?)?;
    }
    Ok(Some(columns))
}

// The column of a heading, before its fields are seen.
fn column_of(alloc: Global, forms: &[(String, Form)], name: &str) -> Result<Column, AllocError>
    ensures { IfOk result (λ column. column_read column
        ≡ definitions.column_of (map named_form forms.now) name.now) }
{
    Ok(Column {
        name: String::from_str(alloc, name)?,
        form: form_of(forms, name),
        kind: Kind::Texts,
    })
}
