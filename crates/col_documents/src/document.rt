//! Documents.
ghost use Rattle.std.specs.Prelude.{◌≡◌, ◌++◌, [], map, string_bytes, option_map, option_and_then, IfOk};
ghost use Rattle.std.specs.Str.{is_utf8};
ghost use Rattle.json.specs.Json.{document};
ghost use Rattle.json.specs.Value.{value_view, members_view, items_view};
ghost use Rattle.col_common.specs.Reading.{only_if};
ghost use Rattle.col_model.specs.Written as written;
ghost use Rattle.col_questions.specs.Values.{typed_cell};
ghost use Rattle.col_documents.specs.Documents.{field_of, item_fields, items_fields, value_fields, members_fields, if_name, refused, object_fields, fields_of};
ghost use Rattle.col_documents.specs.Forms.{named_form};
ghost use Rattle.col_documents.specs.Read.{IsRefusedAs, PutsFields, ReadsFields};
ghost use Rattle.col_documents.specs.Values.{GivesValue, Taken};

use crate::field::Field;
use crate::form::{Form, form_of};
use crate::refusal::{DocumentError, Reason, Refusal, ValueError};
use crate::scalar::{flag_in, number_in, text_in};
use col_common::JSON_PATH_SEGMENT_SEP;
use col_questions::TypedValue;
use json::{Error, Scratch, Value};
use std::alloc::{AllocError, Global};

/// The fields of the document that a line is: of an object, each value under the path of its field,
/// which is the names from the outermost on with `JSON_PATH_SEGMENT_SEP` between them. Null is no
/// value, an array has each of its items. `forms` says how fields are read by their paths.
///
/// # Errors
///
/// Refused, with the first field whose value isn't taken, or an empty path where the line is no
/// object in JSON.
#[tactic(auto, unfolding(crate::specs::Documents::fields_of))]
pub fn read_document(
    alloc: Global,
    forms: &[(String, Form)],
    scratch: &mut Scratch,
    line: &[u8],
) -> Result<Vec<Field>, DocumentError>
    ensures { ReadsFields result (fields_of (map named_form forms.now) line.now) }
{
    let value = parse_json(alloc, line, scratch)?;
    read_value(alloc, forms, value)
}

// The JSON value of a line, none where it is no JSON text.
fn parse_json<'a>(
    alloc: Global,
    line: &'a [u8],
    scratch: &'a mut Scratch,
) -> Result<Option<Value<'a>>, AllocError>
    ensures { IfOk result (λ value. option_map value_view value
        ≡ option_and_then document (only_if (is_utf8 line.now) line.now)) }
{
    match Value::from_slice(alloc, line, scratch) {
        Ok(value) => Ok(Some(value)),
        Err(error) => match error {
            Error::OutOfMemory => Err(AllocError),
            _ => Ok(None),
        },
    }
}

// The fields of a JSON value that is a document.
fn read_value(
    alloc: Global,
    forms: &[(String, Form)],
    value: Option<Value<'_>>,
) -> Result<Vec<Field>, DocumentError>
    ensures { ReadsFields result
        (object_fields (map named_form forms.now) (option_map value_view value.entry)) }
{
    match value {
        Some(Value::Object(members)) => read_members(alloc, forms, &members),
        Some(_) => Err(refused_line(alloc, Reason::Object)),
        None => Err(refused_line(alloc, Reason::Json)),
    }
}

// The fields of the members of an object.
fn read_members(
    alloc: Global,
    forms: &[(String, Form)],
    members: &Vec<(&str, Value<'_>)>,
) -> Result<Vec<Field>, DocumentError>
    ensures { ReadsFields result
        (members_fields (map named_form forms.now) [] (members_view members.now.items)) }
{
    let mut fields = Vec::new(alloc);
    push_members(alloc, forms, "", members, &mut fields)?;
    Ok(fields)
}

// A line that is refused as a whole.
fn refused_line(alloc: Global, reason: Reason) -> DocumentError
    ensures { IsRefusedAs result (refused [] reason) }
{
    DocumentError::Refused(Refusal {
        path: String::new(alloc),
        reason,
    })
}

// Puts the fields of members, whose names stand behind `front`, behind others.
#[cycle(value)]
fn push_members(
    alloc: Global,
    forms: &[(String, Form)],
    front: &str,
    members: &Vec<(&str, Value<'_>)>,
    fields: &mut Vec<Field>,
) -> Result<(), DocumentError>
    ensures { PutsFields fields.old.items fields.new.items result
        (members_fields (map named_form forms.now) front.now (members_view members.now.items)) }
{
    for member in members {
        push_member(alloc, forms, front, member.0, &member.1, fields)?;
    }
    Ok(())
}

// The same of a member.
#[cycle(value)]
fn push_member(
    alloc: Global,
    forms: &[(String, Form)],
    front: &str,
    name: &str,
    value: &Value<'_>,
    fields: &mut Vec<Field>,
) -> Result<(), DocumentError>
    ensures { PutsFields fields.old.items fields.new.items result
        (if_name name.now (front.now ++ name.now)
        (value_fields (map named_form forms.now) (front.now ++ name.now) (value_view value.now))) }
{
    let path = path_of(alloc, front, name)?;
    if has_zero(name) {
        return Err(DocumentError::Refused(Refusal {
            path,
            reason: Reason::Name,
        }));
    }
    push_value(alloc, forms, path, value, fields)
}

// The same of a value at a path.
#[cycle(value)]
fn push_value(
    alloc: Global,
    forms: &[(String, Form)],
    path: String,
    value: &Value<'_>,
    fields: &mut Vec<Field>,
) -> Result<(), DocumentError>
    ensures { PutsFields fields.old.items fields.new.items result
        (value_fields (map named_form forms.now) (string_bytes path) (value_view value.now)) }
{
    match value {
        Value::Array(items) => {
            let form = form_of(forms, path.as_str());
            push_items(alloc, form, path.as_str(), items, fields)
        }
        Value::Object(members) => {
            let mut front = path;
            front.push(char::from(JSON_PATH_SEGMENT_SEP))?;
            push_members(alloc, forms, front.as_str(), members, fields)
        }
        _ => {
            let form = form_of(forms, path.as_str());
            push_item(alloc, form, path, value, fields)
        }
    }
}

// The same of the items of an array.
fn push_items(
    alloc: Global,
    form: Form,
    path: &str,
    items: &Vec<Value<'_>>,
    fields: &mut Vec<Field>,
) -> Result<(), DocumentError>
    ensures { PutsFields fields.old.items fields.new.items result
        (items_fields form path.now (items_view items.now.items)) }
{
    for item in items {
        let path = String::from_str(alloc, path)?;
        push_item(alloc, form, path, item, fields)?;
    }
    Ok(())
}

// The same of an item.
fn push_item(
    alloc: Global,
    form: Form,
    path: String,
    item: &Value<'_>,
    fields: &mut Vec<Field>,
) -> Result<(), DocumentError>
    ensures { PutsFields fields.old.items fields.new.items result
        (item_fields form (string_bytes path) (value_view item.now)) }
{
    match item {
        Value::Null => Ok(()),
        Value::Bool(flag) => push_field(path, flag_in(form, *flag), fields),
        Value::Number(text) => push_field(path, number_in(alloc, form, text), fields),
        Value::String(text) => push_field(path, text_in(alloc, form, text), fields),
        Value::Array(_) | Value::Object(_) => Err(DocumentError::Refused(Refusal {
            path,
            reason: Reason::Nested,
        })),
    }
}

/// Puts a field behind others, if its value was taken.
pub fn push_field(
    path: String,
    taken: Result<TypedValue, ValueError>,
    fields: &mut Vec<Field>,
) -> Result<(), DocumentError>
    ensures { (expected : Taken) → GivesValue typed_cell taken expected
        → PutsFields fields.old.items fields.new.items result
        (field_of (string_bytes path) expected) }
{
    match taken {
        Ok(value) => {
            fields.push(Field { path, value })?;
            Ok(())
        }
        Err(ValueError::OutOfMemory) => Err(DocumentError::OutOfMemory),
        Err(ValueError::Refused(reason)) => Err(DocumentError::Refused(Refusal { path, reason })),
    }
}

// A name behind what stands in front of it.
fn path_of(alloc: Global, front: &str, name: &str) -> Result<String, AllocError>
    ensures { IfOk result (λ path. string_bytes path ≡ front.now ++ name.now) }
{
    let mut path = String::from_str(alloc, front)?;
    path.push_str(name)?;
    Ok(path)
}

fn has_zero(name: &str) -> bool
    ensures { result ≡ written.has_zero name.now }
{
    name.as_bytes().iter().any(|byte| *byte == 0)
}
