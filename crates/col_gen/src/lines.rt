//! Appends single lines.
ghost use Rattle.std.specs.Prelude.{◌≡◌, ◌∷◌, ◌-ℤ◌, ◌%◌, [], pos, false, IfOk, OnOk};
ghost use Rattle.serde_json.specs.View.{view};
ghost use Rattle.serde_json.specs.Written.{has_float};
ghost use Rattle.col_program.specs.GenScript.{value_data, size_line, city_lines, delta_line, on_line, addr_lines};
ghost use Rattle.col_program.specs.Report.{Prints};
ghost use Rattle.col_gen.specs.Generated.{segment_line};

use crate::text::{address_digits, city_name};
use col_lines::push_line;
use serde_json::{Value, json};
use std::alloc::{AllocError, Global};

// Appends the line of a segment of so many documents.
pub(crate) fn push_segment_line(
    alloc: Global,
    out: &mut Vec<u8>,
    count: u32,
) -> Result<(), AllocError>
    ensures { OnOk result (Prints out.old.items out.new.items (segment_line count ∷ [])) }
{
    let line = segment_value(alloc, count)?;
    push_line(alloc, out, &line)
}

fn segment_value(alloc: Global, count: u32) -> Result<Value, AllocError>
    ensures { IfOk result (λ v. view v ≡ segment_line count) }
{
    json!(in alloc; ["segment", count])
}

// Appends a document's size.
pub(crate) fn push_size(
    alloc: Global,
    out: &mut Vec<u8>,
    document: u32,
    drawn: u64,
) -> Result<(), AllocError>
    ensures { OnOk result (Prints out.old.items out.new.items (size_line document drawn ∷ [])) }
{
    push_value(
        alloc,
        out,
        "u64",
        document,
        "size",
        Value::from(drawn % 1000),
    )
}

// Appends a document's city, where it has one.
pub(crate) fn push_city(
    alloc: Global,
    out: &mut Vec<u8>,
    document: u32,
    drawn: u64,
) -> Result<(), AllocError>
    ensures { OnOk result (Prints out.old.items out.new.items (city_lines document drawn)) }
{
    if drawn % 4 == 0 {
        return Ok(());
    }
    let city = city_name(alloc, drawn % 16)?;
    push_value(alloc, out, "str", document, "city", Value::from(city))
}

// Appends a value of a document's delta.
pub(crate) fn push_delta(
    alloc: Global,
    out: &mut Vec<u8>,
    document: u32,
    drawn: u64,
) -> Result<(), AllocError>
    ensures { OnOk result (Prints out.old.items out.new.items (delta_line document drawn ∷ [])) }
{
    push_value(
        alloc,
        out,
        "i64",
        document,
        "delta",
        Value::from(delta_of(drawn)),
    )
}

fn delta_of(drawn: u64) -> i64
    ensures { result ≡ pos (drawn % 201) -ℤ pos 100 }
{
    (drawn % 201) as i64 - 100
}

// Appends whether a document is on.
pub(crate) fn push_on(
    alloc: Global,
    out: &mut Vec<u8>,
    document: u32,
    drawn: u64,
) -> Result<(), AllocError>
    ensures { OnOk result (Prints out.old.items out.new.items (on_line document drawn ∷ [])) }
{
    push_value(
        alloc,
        out,
        "bool",
        document,
        "on",
        Value::from(drawn % 2 == 1),
    )
}

// Appends a document's address, where it has one.
pub(crate) fn push_addr(
    alloc: Global,
    out: &mut Vec<u8>,
    document: u32,
    drawn: u64,
) -> Result<(), AllocError>
    ensures { OnOk result (Prints out.old.items out.new.items (addr_lines document drawn)) }
{
    if drawn % 5 != 0 {
        return Ok(());
    }
    let address = address_digits(alloc, drawn % 4096)?;
    push_value(alloc, out, "ip", document, "addr", Value::from(address))
}

// Appends the line of a document's value.
fn push_value(
    alloc: Global,
    out: &mut Vec<u8>,
    word: &str,
    document: u32,
    name: &str,
    value: Value,
) -> Result<(), AllocError>
    requires { has_float (view value) ≡ false }
    ensures { OnOk result (Prints out.old.items out.new.items
        (value_data word.now document name.now (view value) ∷ [])) }
{
    let line = value_line(alloc, word, document, name, value)?;
    push_line(alloc, out, &line)
}

fn value_line(
    alloc: Global,
    word: &str,
    document: u32,
    name: &str,
    value: Value,
) -> Result<Value, AllocError>
    ensures { IfOk result (λ v. view v ≡ value_data word.now document name.now (view value)) }
{
    json!(in alloc; [word, document, name, value])
}
