//! Times as texts.
ghost use Rattle.std.specs.Prelude.{◌≡◌, ◌==◌};
ghost use Rattle.std.specs.List.{list_any};
ghost use Rattle.jiff.specs.Words.{civil_nanos};
ghost use Rattle.col_documents.specs.Numbers.{time_of_nanos};
ghost use Rattle.col_documents.specs.Times.{opening_bracket, civil_time, time_of_text};
ghost use Rattle.col_documents.specs.Values.{GivesReason};
ghost use Rattle.col_questions.specs.Values.{typed_cell};

use crate::refusal::Reason;
use col_common::DateTime;
use col_questions::TypedValue;
use jiff::tz::Offset;
use jiff::{Timestamp, civil};

/// The time that a text writes: with an offset, or in UTC where it has neither an offset nor a
/// zone; a date alone is the start of its day.
pub fn time_spelled(text: &str) -> Result<TypedValue, Reason>
    ensures { GivesReason typed_cell result (time_of_text text.now) }
{
    match text.parse::<Timestamp>() {
        Ok(timestamp) => time_of(timestamp.as_nanosecond()),
        Err(_) => utc_spelled(text),
    }
}

// The time that a text writes in UTC.
fn utc_spelled(text: &str) -> Result<TypedValue, Reason>
    ensures { GivesReason typed_cell result (civil_time text.now) }
{
    if names_zone(text) {
        return Err(Reason::Form);
    }
    match text.parse::<civil::DateTime>() {
        Ok(datetime) => time_in_utc(datetime),
        Err(_) => Err(Reason::Form),
    }
}

// Whether a zone may be named.
fn names_zone(text: &str) -> bool
    ensures { result ≡ list_any (λ b. b == opening_bracket) text.now }
{
    text.as_bytes().iter().any(|byte| *byte == b'[')
}

// The time in UTC that a clock shows.
fn time_in_utc(datetime: civil::DateTime) -> Result<TypedValue, Reason>
    ensures { GivesReason typed_cell result (time_of_nanos (civil_nanos datetime)) }
{
    match Offset::UTC.to_timestamp(datetime) {
        Ok(timestamp) => time_of(timestamp.as_nanosecond()),
        Err(_) => Err(Reason::TooLarge),
    }
}

// The time of so many nanoseconds since 1970.
fn time_of(nanos: i128) -> Result<TypedValue, Reason>
    ensures { GivesReason typed_cell result (time_of_nanos nanos) }
{
    match i64::try_from(nanos) {
        Ok(nanos) => Ok(TypedValue::DateTime(DateTime::from_timestamp_nanos(nanos))),
        Err(_) => Err(Reason::TooLarge),
    }
}
