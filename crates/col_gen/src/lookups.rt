//! Appends the lookups.
ghost use Rattle.std.specs.Prelude.{◌≡◌, ◌∷◌, [], false, IfOk, OnOk};
ghost use Rattle.serde_json.specs.View.{view};
ghost use Rattle.serde_json.specs.Written.{has_float};
ghost use Rattle.col_program.specs.GenScript.{find_data, lookup_lines};
ghost use Rattle.col_program.specs.Report.{Prints};
ghost use Rattle.col_gen.specs.Generated.{size_find, city_find, delta_find, addr_find};

use crate::text::address_digits;
use col_lines::push_line;
use serde_json::{Value, json};
use std::alloc::{AllocError, Global};
use std::ops::Range;

// Appends the four lookups.
pub(crate) fn push_lookups(alloc: Global, out: &mut Vec<u8>) -> Result<(), AllocError>
    ensures { OnOk result (Prints out.old.items out.new.items lookup_lines) }
{
    push_size_find(alloc, out)?;
    push_city_find(alloc, out)?;
    push_delta_find(alloc, out)?;
    push_addr_find(alloc, out)
}

fn push_size_find(alloc: Global, out: &mut Vec<u8>) -> Result<(), AllocError>
    ensures { OnOk result (Prints out.old.items out.new.items (size_find ∷ [])) }
{
    let low = Value::from(0_u64);
    let high = Value::from(99_u64);
    push_find(alloc, out, "size", "i64", low, high, 0..4000)
}

fn push_city_find(alloc: Global, out: &mut Vec<u8>) -> Result<(), AllocError>
    ensures { OnOk result (Prints out.old.items out.new.items (city_find ∷ [])) }
{
    let first = String::from_str(alloc, "c1")?;
    let last = String::from_str(alloc, "c15")?;
    let low = Value::from(first);
    let high = Value::from(last);
    push_find(alloc, out, "city", "str", low, high, 0..4000)
}

fn push_delta_find(alloc: Global, out: &mut Vec<u8>) -> Result<(), AllocError>
    ensures { OnOk result (Prints out.old.items out.new.items (delta_find ∷ [])) }
{
    let low = Value::from(-10_i64);
    let high = Value::from(10_i64);
    push_find(alloc, out, "delta", "i64", low, high, 1000..3000)
}

fn push_addr_find(alloc: Global, out: &mut Vec<u8>) -> Result<(), AllocError>
    ensures { OnOk result (Prints out.old.items out.new.items (addr_find ∷ [])) }
{
    let first = address_digits(alloc, 0)?;
    let last = address_digits(alloc, 255)?;
    let low = Value::from(first);
    let high = Value::from(last);
    push_find(alloc, out, "addr", "ip", low, high, 0..4000)
}

// Appends the line of a lookup.
fn push_find(
    alloc: Global,
    out: &mut Vec<u8>,
    name: &str,
    word: &str,
    low: Value,
    high: Value,
    selected: Range<u32>,
) -> Result<(), AllocError>
    requires low_is_whole { has_float (view low) ≡ false }
    requires high_is_whole { has_float (view high) ≡ false }
    ensures { OnOk result (Prints out.old.items out.new.items
        (find_data name.now word.now (view low) (view high) selected.start selected.end ∷ [])) }
{
    let line = find_line(alloc, name, word, low, high, selected)?;
    push_line(alloc, out, &line)
}

fn find_line(
    alloc: Global,
    name: &str,
    word: &str,
    low: Value,
    high: Value,
    selected: Range<u32>,
) -> Result<Value, AllocError>
    ensures { IfOk result (λ v. view v ≡
        find_data name.now word.now (view low) (view high) selected.start selected.end) }
{
    json!(in alloc; ["find", name, word, low, high, selected.start, selected.end])
}
