//! Numbers in decimal.
ghost use Rattle.std.specs.Prelude.{◌≡◌, ◌==◌, ◌≤◌, length, position, IfOk, IsTrue};
ghost use Rattle.std.specs.Str.Parse.{signed_digits_value};
ghost use Rattle.col_documents.specs.Numbers as definitions;
ghost use Rattle.col_documents.specs.Numbers.{point, parts_of, scaled_digits, typed_number, number_at, time_of_millis};
ghost use Rattle.col_documents.specs.Values.{GivesValue, GivesReason};
ghost use Rattle.col_questions.specs.Values.{typed_cell};

use crate::refusal::{Reason, ValueError};
use col_common::DateTime;
use col_questions::TypedValue;
use fast_float::{parse_i64, parse_u64};
use std::alloc::{AllocError, Global};

const NANOS_A_MILLI: i64 = 1_000_000;

/// The number that a numeral is, where so many digits may stand behind its point.
pub fn number_spelled(alloc: Global, text: &[u8], scale: u8) -> Result<TypedValue, ValueError>
    ensures { GivesValue typed_cell result (number_at scale text.now) }
{
    let (whole, fraction) = split_at_point(text);
    if !is_whole(whole) || !are_digits(fraction) || fraction.len() > usize::from(scale) {
        return Err(ValueError::Refused(Reason::Fraction));
    }
    if scale == 0 {
        return Ok(typed_number(whole)?);
    }
    let digits = digits_at_scale(alloc, whole, fraction, scale)?;
    Ok(typed_number(digits.as_slice())?)
}

/// The time of so many milliseconds.
pub fn millis_spelled(text: &[u8]) -> Result<TypedValue, Reason>
    ensures { GivesReason typed_cell result (time_of_millis text.now) }
{
    if !is_whole(text) {
        return Err(Reason::Fraction);
    }
    let Ok(millis) = parse_i64(text) else {
        return Err(Reason::TooLarge);
    };
    match millis.checked_mul(NANOS_A_MILLI) {
        Some(nanos) => Ok(TypedValue::DateTime(DateTime::from_timestamp_nanos(nanos))),
        None => Err(Reason::TooLarge),
    }
}

// What stands before the first point, and what behind it.
fn split_at_point(text: &[u8]) -> (&[u8], &[u8])
    ensures { (result.0.now, result.1.now) ≡ parts_of text.now }
{
    match place_of_point(text) {
        Some(place) => (&text[..place], &text[place + 1..]),
        None => (text, &[]),
    }
}

fn place_of_point(text: &[u8]) -> Option<usize>
    ensures { result ≡ position (λ b. b == point) text.now }
{
    text.iter().position(|byte| *byte == b'.')
}

// Whether it is digits, at least one, with a minus in front of them or none.
fn is_whole(text: &[u8]) -> bool
    ensures { result ≡ definitions.is_whole text.now }
{
    let digits = match text {
        [b'-', digits @ ..] => digits,
        _ => text,
    };
    !digits.is_empty() && are_digits(digits)
}

fn are_digits(text: &[u8]) -> bool
    ensures { result ≡ definitions.are_digits text.now }
{
    text.iter().all(|byte| byte.is_ascii_digit())
}

// The number that digits spell, as i64 where it is one, else as u64.
fn typed_number(digits: &[u8]) -> Result<TypedValue, Reason>
    requires { IsTrue (definitions.is_whole digits.now) }
    ensures { GivesReason typed_cell result (typed_number (signed_digits_value 10 digits.now)) }
{
    if let Ok(number) = parse_i64(digits) {
        return Ok(TypedValue::I64(number));
    }
    match parse_u64(digits) {
        Ok(number) => Ok(TypedValue::U64(number)),
        Err(_) => Err(Reason::TooLarge),
    }
}

// The digits before and behind the point, with zeros up to the scale.
fn digits_at_scale(
    alloc: Global,
    whole: &[u8],
    fraction: &[u8],
    scale: u8,
) -> Result<Vec<u8>, AllocError>
    requires { length fraction.now ≤ scale }
    ensures { IfOk result
        (λ digits. digits.items ≡ scaled_digits scale (whole.now, fraction.now)) }
{
    let mut digits = Vec::from_slice(alloc, whole)?;
    digits.extend_from_slice(fraction)?;
    digits.resize(digits.len() + usize::from(scale) - fraction.len(), b'0')?;
    Ok(digits)
}
