//! What is said of documents that are refused.

use crate::forms::name_of;
use col_common::JSON_PATH_SEGMENT_SEP;
use col_documents::{Form, Reason, Refusal};
use json::{Scratch, Value};
use std::alloc::{AllocError, Global};

/// Why a document is refused; the value is written as it stands there, where it is known.
pub fn refusal_text(
    alloc: Global,
    forms: &[(String, Form)],
    refusal: &Refusal,
    value: Option<&str>,
) -> Result<String, AllocError> {
    let name = name_of(alloc, refusal.path.as_str())?;
    let name = name.as_str();
    match refusal.reason {
        Reason::Json => String::from_str(alloc, "this is no JSON text"),
        Reason::Object => String::from_str(alloc, "this is no object in JSON"),
        Reason::Name => format!(in alloc; "a name has a zero byte: {name:?}"),
        Reason::Nested => format!(in alloc;
            "\"{name}\" has an array or an object within an array, where values alone may stand"
        ),
        Reason::Fraction => fraction_text(alloc, name, value),
        Reason::TooLarge => format!(in alloc;
            "\"{name}\" is {}, too large for 64 bits",
            said(value)
        ),
        Reason::Form => format!(in alloc;
            "\"{name}\" is {}, and {}",
            said(value),
            lack_of(form_of(forms, refusal.path.as_str()))
        ),
        Reason::Text => format!(in alloc; "\"{name}\" isn't UTF-8"),
        Reason::Width => {
            String::from_str(
                alloc,
                "this record has more or fewer fields than the first one",
            )
        }
    }
}

// The form of the field with a path.
fn form_of(forms: &[(String, Form)], path: &str) -> Form {
    match forms.iter().find(|named| named.0.as_str() == path) {
        Some(named) => named.1,
        None => Form::Plain,
    }
}

// What a value lacks that isn't of a form.
fn lack_of(form: Form) -> &'static str {
    match form {
        Form::Date => "is no date or time: 2026-01-31, 2026-01-31T23:59:59Z",
        Form::Millis => "is no whole number of milliseconds",
        Form::Address => "is no address: 10.0.0.1, 2001:db8::1",
        Form::Digits => "has other letters than hexadecimal digits, two for each byte",
        Form::Decimal(_) => "is no number",
        Form::Plain => "is of no type",
    }
}

fn said<'a>(value: Option<&'a str>) -> &'a str {
    value.unwrap_or("a value")
}

fn fraction_text(alloc: Global, name: &str, value: Option<&str>) -> Result<String, AllocError> {
    let Some(value) = value else {
        return format!(in alloc; "\"{name}\" has a fraction: try --decimal {name}=N");
    };
    if value.contains('e') || value.contains('E') {
        return format!(in alloc; "\"{name}\" is {value}, with an exponent: write all its digits");
    }
    let digits = match value.rsplit_once('.') {
        Some((_, fraction)) => fraction.len(),
        None => 0,
    };
    format!(in alloc; "\"{name}\" is {value}, a fraction: try --decimal {name}={digits}")
}

/// The number or the text at a path of a line.
pub fn value_text(alloc: Global, line: &[u8], path: &str) -> Option<String> {
    let mut scratch = Scratch::new(alloc);
    let Ok(value) = Value::from_slice(alloc, line, &mut scratch) else {
        return None;
    };
    let mut at = &value;
    for name in path.split(char::from(JSON_PATH_SEGMENT_SEP)) {
        let Value::Object(members) = at else {
            return None;
        };
        let member = members.iter().find(|member| member.0 == name)?;
        at = &member.1;
    }
    match at {
        Value::Number(text) => String::from_str(alloc, *text).ok(),
        Value::String(text) => format!(in alloc; "{text:?}").ok(),
        Value::Bool(flag) => flag.to_string(alloc).ok(),
        _ => None,
    }
}
