//! Values of fields by their forms.
ghost use Rattle.col_documents.specs.declared.form.Form.TheVariants as Form;
ghost use Rattle.col_documents.specs.Scalars as definitions;
ghost use Rattle.col_documents.specs.Values.{GivesValue};
ghost use Rattle.col_questions.specs.Values.{typed_cell};

use crate::address::address_spelled;
use crate::form::Form;
use crate::number::{millis_spelled, number_spelled};
use crate::refusal::{Reason, ValueError};
use crate::time::time_spelled;
use col_questions::TypedValue;
use hex::FromHexError;
use std::alloc::Global;

/// What a number is in a form.
pub fn number_in(alloc: Global, form: Form, text: &str) -> Result<TypedValue, ValueError>
    ensures { GivesValue typed_cell result (definitions.number_in form text.now) }
{
    match form {
        Form::Plain => number_spelled(alloc, text.as_bytes(), 0),
        Form::Decimal(scale) => number_spelled(alloc, text.as_bytes(), scale),
        Form::Millis => Ok(millis_spelled(text.as_bytes())?),
        Form::Date | Form::Address | Form::Digits => Err(ValueError::Refused(Reason::Form)),
    }
}

/// What a text is in a form.
pub fn text_in(alloc: Global, form: Form, text: &str) -> Result<TypedValue, ValueError>
    ensures { GivesValue typed_cell result (definitions.text_in form text.now) }
{
    match form {
        Form::Plain => Ok(TypedValue::Str(String::from_str(alloc, text)?)),
        Form::Date => Ok(time_spelled(text)?),
        Form::Address => Ok(address_spelled(text)?),
        Form::Digits => bytes_of(alloc, text),
        Form::Decimal(_) | Form::Millis => Err(ValueError::Refused(Reason::Form)),
    }
}

/// What true or false is in a form.
pub fn flag_in(form: Form, flag: bool) -> Result<TypedValue, ValueError>
    ensures { GivesValue typed_cell result (definitions.flag_in form flag) }
{
    match form {
        Form::Plain => Ok(TypedValue::Bool(flag)),
        Form::Date | Form::Millis | Form::Address | Form::Digits | Form::Decimal(_) => {
            Err(ValueError::Refused(Reason::Form))
        }
    }
}

// The bytes that hexadecimal digits spell.
fn bytes_of(alloc: Global, text: &str) -> Result<TypedValue, ValueError>
    ensures { GivesValue typed_cell result (definitions.text_in Form.Digits text.now) }
{
    match hex::decode(alloc, text) {
        Ok(bytes) => Ok(TypedValue::Bytes(bytes)),
        Err(FromHexError::OutOfMemory) => Err(ValueError::OutOfMemory),
        Err(_) => Err(ValueError::Refused(Reason::Form)),
    }
}
