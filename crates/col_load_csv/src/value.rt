//! Fields as values.
ghost use Rattle.std.specs.Prelude.{◌≡◌, IfOk, option_map};
ghost use Rattle.std.specs.Str.{is_utf8};
ghost use Rattle.col_common.specs.Reading.{only_if};
ghost use Rattle.col_documents.specs.Values.{GivesValue};
ghost use Rattle.col_model.specs.ColumnType as types;
ghost use Rattle.col_model.specs.Table as cells;
ghost use Rattle.col_questions.specs.Values.{typed_cell};
ghost use Rattle.col_load_csv.specs.Columns.{taken_by, text_taken};
ghost use Rattle.col_load_csv.specs.Kinds as definitions;

use crate::kind::Kind;
use col_csv_fields::{flag_spelled, signed_spelled, unsigned_spelled};
use col_documents::{Form, Reason, ValueError, number_in, text_in};
use col_questions::TypedValue;
use std::alloc::{AllocError, Global};

/// What a field is in a form, or without one in a kind.
pub(crate) fn value_of(
    alloc: Global,
    form: Form,
    kind: Kind,
    field: &[u8],
) -> Result<TypedValue, ValueError>
    ensures { GivesValue typed_cell result (text_taken form kind field.now) }
{
    match text_of(field) {
        Some(text) => value_by(alloc, form, kind, text),
        None => Err(ValueError::Refused(Reason::Text)),
    }
}

/// The bytes as a text.
pub(crate) fn text_of(bytes: &[u8]) -> Option<&str>
    ensures { option_map (λ text. text.now) result ≡ only_if (is_utf8 bytes.now) bytes.now }
{
    match str::from_utf8(bytes) {
        Ok(text) => Some(text),
        Err(_) => None,
    }
}

// What a text is in a form, or without one in a kind.
fn value_by(alloc: Global, form: Form, kind: Kind, text: &str) -> Result<TypedValue, ValueError>
    ensures { GivesValue typed_cell result (taken_by form kind text.now) }
{
    match form {
        Form::Plain => value_in(alloc, kind, text),
        Form::Decimal(_) | Form::Millis => number_in(alloc, form, text),
        Form::Date | Form::Address | Form::Digits => text_in(alloc, form, text),
    }
}

// What a text is in a column of a kind.
fn value_in(alloc: Global, kind: Kind, text: &str) -> Result<TypedValue, ValueError>
    ensures { GivesValue typed_cell result (definitions.value_in kind text.now) }
{
    match kind {
        Kind::Signed => match signed_spelled(text.as_bytes()) {
            Some(number) => Ok(TypedValue::I64(number)),
            None => Ok(str_value(alloc, text)?),
        },
        Kind::Unsigned => match unsigned_spelled(text.as_bytes()) {
            Some(number) => Ok(TypedValue::U64(number)),
            None => Ok(str_value(alloc, text)?),
        },
        Kind::Fractions => number_in(alloc, Form::Plain, text),
        Kind::Flags => match flag_spelled(text.as_bytes()) {
            Some(flag) => Ok(TypedValue::Bool(flag)),
            None => Ok(str_value(alloc, text)?),
        },
        Kind::Texts => Ok(str_value(alloc, text)?),
    }
}

// A text as a value.
fn str_value(alloc: Global, text: &str) -> Result<TypedValue, AllocError>
    ensures { IfOk result (λ value. typed_cell value ≡ (types.str, cells.text text.now)) }
{
    Ok(TypedValue::Str(String::from_str(alloc, text)?))
}
