//! Forms of fields, as words name them.

use clap::ArgMatches;
use col_common::JSON_PATH_SEGMENT_SEP;
use col_documents::Form;
use std::alloc::{AllocError, Global};

/// The forms that words give to fields, or the word that gives none.
pub fn forms_of<'a>(
    alloc: Global,
    matches: &ArgMatches<'a>,
) -> Result<Result<Vec<(String, Form)>, &'a str>, AllocError> {
    let mut forms = Vec::new(alloc);
    for (word, form) in [
        ("date", Form::Date),
        ("millis", Form::Millis),
        ("ip", Form::Address),
        ("bytes", Form::Digits),
    ] {
        for field in matches.get_strs(word).unwrap_or(&[]) {
            push_form(alloc, &mut forms, field, form)?;
        }
    }
    for words in matches.get_strs("decimal").unwrap_or(&[]) {
        let Some((field, digits)) = words.rsplit_once('=') else {
            return Ok(Err(words));
        };
        let Ok(scale) = digits.parse::<u8>() else {
            return Ok(Err(words));
        };
        push_form(alloc, &mut forms, field, Form::Decimal(scale))?;
    }
    Ok(Ok(forms))
}

// A name with dots stands for itself and for the path through nested objects.
fn push_form(
    alloc: Global,
    forms: &mut Vec<(String, Form)>,
    field: &str,
    form: Form,
) -> Result<(), AllocError> {
    forms.push((String::from_str(alloc, field)?, form))?;
    if field.contains('.') {
        forms.push((path_of(alloc, field)?, form))?;
    }
    Ok(())
}

/// The path through nested objects of a name with dots.
pub fn path_of(alloc: Global, name: &str) -> Result<String, AllocError> {
    let mut path = String::with_capacity(alloc, name.len())?;
    for letter in name.chars() {
        path.push(if letter == '.' {
            char::from(JSON_PATH_SEGMENT_SEP)
        } else {
            letter
        })?;
    }
    Ok(path)
}

/// A path through nested objects as a name with dots.
pub fn name_of(alloc: Global, path: &str) -> Result<String, AllocError> {
    let mut name = String::with_capacity(alloc, path.len())?;
    for letter in path.chars() {
        name.push(if letter == char::from(JSON_PATH_SEGMENT_SEP) {
            '.'
        } else {
            letter
        })?;
    }
    Ok(name)
}
