//! Lines of values in the plain form, read without a tree.
ghost use Rattle.std.specs.Prelude.{◌≡◌, ◌==◌, ◌<◌, Some, IfSome, IfOk, IsTrue, option_and_then, length, slice_index, true, false};
ghost use Rattle.json.specs.Reads.{token_of};
ghost use Rattle.json.specs.Token.{number};
ghost use Rattle.serde_json.specs.Data.{string, boolean};
ghost use Rattle.serde_json.specs.Read.{number_of, number_from};
ghost use Rattle.serde_json.specs.View.{number_view};
ghost use Rattle.col_model.specs.ColumnType as types;
ghost use Rattle.col_program.specs.Script.{line_spelled};
ghost use Rattle.col_program.specs.Values.{as_u32};
ghost use Rattle.col_types.specs.Kinds.{kind_of};
ghost use Rattle.col_questions.specs.Values.{typed_as, typed_cell};
ghost use Rattle.col_lines.specs.Lines.{script_line_of};
ghost use Rattle.col_lines.specs.Plain.{tokens_of, data_of, plain_line};

use crate::line::{Call, Line};
use col_common::{DateTime, DocId};
use col_questions::{TypedValue, bytes_spelled, ip_addr_spelled, type_named};
use col_types::ColumnType;
use fast_float::Numeral;
use json::{Reader, Scratch, Token};
use serde_json::Number;
use std::alloc::{AllocError, Global};

// The parts of a line in the plain form.
#[derive(Clone, Copy, Drop)]
struct Parts<'a> {
    word: &'a str,
    doc: &'a str,
    name: &'a str,
    value: Token<'a>,
}

/// The line of a piece that spells a value in the plain form. None says nothing of the piece.
pub fn parse_plain(
    alloc: Global,
    scratch: &mut Scratch,
    piece: &[u8],
) -> Result<Option<Line>, AllocError>
    ensures { IfOk result
        (λ line. IfSome line (λ l. line_spelled piece.now ≡ Some (script_line_of l))) }
{
    let Ok(text) = std::str::from_utf8(piece) else {
        return Ok(None);
    };
    let mut reader = Reader::new(text, scratch)?;
    match read_parts(&mut reader) {
        Some(parts) => parse_parts(alloc, parts),
        None => Ok(None),
    }
}

// The parts of an array of four with nothing behind it.
fn read_parts<'a>(reader: &mut Reader<'a>) -> Option<Parts<'a>>
    ensures { IfSome result
        (λ p. reader.old ≡ tokens_of p.word.now p.doc.now p.name.now (token_of p.value)) }
{
    let Some(Token::BeginArray) = reader.next() else {
        return None;
    };
    let Some(Token::String(word)) = reader.next() else {
        return None;
    };
    let Some(Token::Number(doc)) = reader.next() else {
        return None;
    };
    let Some(Token::String(name)) = reader.next() else {
        return None;
    };
    let Some(value) = reader.next() else {
        return None;
    };
    let Some(Token::EndArray) = reader.next() else {
        return None;
    };
    if reader.next().is_some() {
        return None;
    }
    Some(Parts {
        word,
        doc,
        name,
        value,
    })
}

// The line of some parts.
fn parse_parts(alloc: Global, parts: Parts<'_>) -> Result<Option<Line>, AllocError>
    ensures { IfOk result (λ line. IfSome line (λ l.
        plain_line parts.entry.word.now parts.entry.doc.now parts.entry.name.now
        (token_of parts.entry.value)
        ≡ Some (script_line_of l))) }
{
    let Some(column_type) = type_named(parts.word) else {
        return Ok(None);
    };
    let Some(doc) = doc_of(parts.doc) else {
        return Ok(None);
    };
    let name = String::from_str(alloc, parts.name)?;
    match value_of(alloc, column_type, parts.value)? {
        Some(value) => Ok(Some(Line::Record(Call::Value { doc, name, value }))),
        None => Ok(None),
    }
}

// The document of a numeral.
fn doc_of(text: &str) -> Option<DocId>
    ensures { IfSome result (λ d. option_and_then as_u32 (data_of (number text.now)) ≡ Some d) }
{
    u32::try_from(as_number(text)?.as_u64()?).ok()
}

// The value of a token.
fn value_of(
    alloc: Global,
    column_type: ColumnType,
    token: Token<'_>,
) -> Result<Option<TypedValue>, AllocError>
    ensures { IfOk result (λ found. IfSome found (λ v.
        option_and_then (typed_as (kind_of column_type)) (data_of (token_of token.entry))
        ≡ Some (typed_cell v))) }
{
    match token {
        Token::String(text) => text_value(alloc, column_type, text),
        Token::Number(text) => Ok(numeral_value(column_type, text)),
        Token::Bool(truth) => Ok(truth_value(column_type, truth)),
        _ => Ok(None),
    }
}

// The value of a text.
fn text_value(
    alloc: Global,
    column_type: ColumnType,
    text: &str,
) -> Result<Option<TypedValue>, AllocError>
    ensures { IfOk result (λ found. IfSome found (λ v.
        typed_as (kind_of column_type) (string text.now) ≡ Some (typed_cell v))) }
{
    match column_type {
        ColumnType::Bytes => bytes_of(alloc, text),
        ColumnType::Str => str_of(alloc, text),
        ColumnType::IpAddr => Ok(ip_addr_of(text)),
        _ => Ok(None),
    }
}

fn bytes_of(alloc: Global, digits: &str) -> Result<Option<TypedValue>, AllocError>
    ensures { IfOk result (λ found. IfSome found (λ v.
        typed_as types.bytes (string digits.now) ≡ Some (typed_cell v))) }
{
    match bytes_spelled(alloc, digits)? {
        Some(bytes) => Ok(Some(TypedValue::Bytes(bytes))),
        None => Ok(None),
    }
}

fn str_of(alloc: Global, text: &str) -> Result<Option<TypedValue>, AllocError>
    ensures { IfOk result (λ found. IfSome found (λ v.
        typed_as types.str (string text.now) ≡ Some (typed_cell v))) }
{
    let text = String::from_str(alloc, text)?;
    Ok(Some(TypedValue::Str(text)))
}

fn ip_addr_of(digits: &str) -> Option<TypedValue>
    ensures { IfSome result (λ v. typed_as types.ip (string digits.now) ≡ Some (typed_cell v)) }
{
    Some(TypedValue::IpAddr(ip_addr_spelled(digits)?))
}

// The value of a numeral.
fn numeral_value(column_type: ColumnType, text: &str) -> Option<TypedValue>
    ensures { IfSome result (λ v. option_and_then (typed_as (kind_of column_type))
        (data_of (number text.now)) ≡ Some (typed_cell v)) }
{
    let number = as_number(text)?;
    match column_type {
        ColumnType::I64 => Some(TypedValue::I64(number.as_i64()?)),
        ColumnType::U64 => Some(TypedValue::U64(number.as_u64()?)),
        ColumnType::DateTime => {
            let nanos = number.as_i64()?;
            Some(TypedValue::DateTime(DateTime::from_timestamp_nanos(nanos)))
        }
        _ => None,
    }
}

// The value of true or false.
fn truth_value(column_type: ColumnType, truth: bool) -> Option<TypedValue>
    ensures { IfSome result (λ v.
        typed_as (kind_of column_type) (boolean truth) ≡ Some (typed_cell v)) }
{
    match column_type {
        ColumnType::Bool => Some(TypedValue::Bool(truth)),
        _ => None,
    }
}

// The number that a numeral without point and exponent is.
fn as_number(text: &str) -> Option<Number>
    ensures { IfSome result (λ x. number_of text.now ≡ Some (number_view x)) }
{
    let digits = text.as_bytes();
    if has_minus(digits) {
        negative(&Numeral::scan(&digits[1..]))
    } else {
        unsigned(&Numeral::scan(digits))
    }
}

fn unsigned(numeral: &Numeral<'_>) -> Option<Number>
    ensures { IfSome result (λ x. number_from false numeral.now ≡ Some (number_view x)) }
{
    match numeral.to_u64() {
        Some(n) => Some(Number::from(n)),
        None => None,
    }
}

// The number below zero.
fn negative(numeral: &Numeral<'_>) -> Option<Number>
    ensures { IfSome result (λ x. number_from true numeral.now ≡ Some (number_view x)) }
{
    let Some(n) = numeral.to_i64(true) else {
        return None;
    };
    if n < 0 { Some(Number::from(n)) } else { None }
}

fn has_minus(bytes: &[u8]) -> bool
    ensures value { result ≡ (slice_index bytes.now 0 == 45) }
    ensures len { IsTrue result → 0 < length bytes.now }
{
    !bytes.is_empty() && bytes[0] == b'-'
}
