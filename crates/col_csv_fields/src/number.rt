//! Numbers in decimal.
ghost use Rattle.std.specs.Prelude.{◌≡◌, ◌+◌, ◌*◌, ◌^◌, ◌==◌, ◌&&◌, ◌||◌, ◌<◌, pos, length, slice_index, nat_le, nat_lt, not, option_map, bytes_eq, decimal};
ghost use Rattle.std.specs.Str.Parse.{starts_with_minus};
ghost use Rattle.col_common.specs.Reading.{only_if};
ghost use Rattle.col_model.specs.ColumnType as types;
ghost use Rattle.col_model.specs.Table as cells;
ghost use Rattle.col_types.specs.Cells.{unsigned_cell};
ghost use Rattle.col_csv.specs.CsvTable.{value_of_text};
ghost use Rattle.col_csv_fields.specs.Fields.{IsNumberOf, negated};

// Numbers below this one have room for one digit more.
const LEAST_FULL: u64 = u64::MAX / 10;

/// Whether a field is the number of a row, in decimal.
pub fn is_row_number(field: &[u8], row: u32) -> bool
    ensures { result ≡ bytes_eq field.now (decimal row) }
{
    match number_spelled(field) {
        Some(number) => number == u64::from(row),
        None => false,
    }
}

/// The number that a text spells in decimal, without a plus or a leading zero.
pub fn unsigned_spelled(text: &[u8]) -> Option<u64>
    ensures { option_map unsigned_cell result ≡ value_of_text types.u64 text.now }
{
    number_spelled(text)
}

/// The number of such a text, where a minus may stand in front of all but 0.
pub fn signed_spelled(text: &[u8]) -> Option<i64>
    ensures i64 { option_map cells.number result ≡ value_of_text types.i64 text.now }
    ensures datetime { option_map cells.number result ≡ value_of_text types.datetime text.now }
{
    if has_minus(text) {
        return negative(number_spelled(&text[1..])?);
    }
    positive(number_spelled(text)?)
}

fn has_minus(text: &[u8]) -> bool
    ensures { result ≡ starts_with_minus text.now }
{
    matches!(text, [b'-', ..])
}

// The number, where an i64 may be it.
fn positive(number: u64) -> Option<i64>
    ensures { result ≡ only_if (nat_lt number (2 ^ 63)) (pos number) }
{
    if number > i64::MAX as u64 {
        None
    } else {
        Some(number as i64)
    }
}

// The number with a minus in front, where that is the text of an i64.
fn negative(number: u64) -> Option<i64>
    ensures { result ≡ negated number }
{
    if number == 0 || number > 1 << 63 {
        None
    } else {
        Some(-((number - 1) as i64) - 1)
    }
}

// The number that a text spells.
fn number_spelled(text: &[u8]) -> Option<u64>
    ensures { IsNumberOf text.now result }
{
    if !begins_as_number(text) {
        return None;
    }
    let mut number = 0;
    for byte in text {
        if !byte.is_ascii_digit() {
            return None;
        }
        number = with_digit(number, u64::from(*byte - b'0'))?;
    }
    Some(number)
}

// Whether the text isn't empty, and has no zero before other bytes.
fn begins_as_number(text: &[u8]) -> bool
    ensures { result ≡ (nat_lt 0 (length text.now)
        && (nat_le (length text.now) 1 || not (slice_index text.now 0 == 48))) }
{
    match text {
        [] => false,
        [first, others @ ..] => others.is_empty() || *first != b'0',
    }
}

// A number with one digit more, as far as 64 bits count.
#[inline]
fn with_digit(number: u64, digit: u64) -> Option<u64>
    requires { digit < 10 }
    ensures { result ≡ only_if (nat_lt (number * 10 + digit) (2 ^ 64)) (number * 10 + digit) }
{
    if number < LEAST_FULL {
        return Some(number * 10 + digit);
    }
    number.checked_mul(10)?.checked_add(digit)
}
