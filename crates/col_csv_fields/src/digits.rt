//! Lower-case hexadecimal digits: addresses and bytes.
ghost use Rattle.std.specs.Prelude.{◌≡◌, ◌/◌, length, option_map, IfOk, IsTrue};
ghost use Rattle.std.specs.List.{list_all};
ghost use Rattle.col_common.specs.Reading.{only_if};
ghost use Rattle.col_model.specs.ColumnType as types;
ghost use Rattle.col_model.specs.Table as cells;
ghost use Rattle.col_types.specs.Cells.{unsigned_cell};
ghost use Rattle.col_csv.specs.CsvTable.{value_of_text};
ghost use Rattle.col_csv_fields.specs.Fields.{is_lower_digit};

use col_common::Ipv6Addr;
use hex::FromHex;
use std::alloc::AllocError;

/// The address that 32 lower-case hexadecimal digits spell.
pub fn address_spelled(text: &[u8]) -> Option<Ipv6Addr>
    ensures { option_map unsigned_cell result ≡ value_of_text types.ip text.now }
{
    if !are_lower_digits(text) {
        return None;
    }
    match <[u8; 16] as FromHex>::from_hex(text) {
        Ok(octets) => Some(Ipv6Addr::from(octets)),
        Err(_) => None,
    }
}

/// Reads lower-case hexadecimal digits into `bytes`, which loses what it had.
pub fn bytes_spelled(text: &[u8], bytes: &mut Vec<u8>) -> Result<bool, AllocError>
    ensures { IfOk result
        (λ found. value_of_text types.bytes text.now ≡ only_if found (cells.text bytes.new.items)) }
{
    if !are_lower_digits(text) {
        return Ok(false);
    }
    bytes.resize(text.len() / 2, 0)?;
    Ok(decode_into(text, bytes.as_mut_slice()))
}

// Whether the digits are those of bytes, which stand in `out` then.
fn decode_into(text: &[u8], out: &mut [u8]) -> bool
    requires lower { IsTrue (list_all is_lower_digit text.now) }
    requires room { length out.old ≡ length text.now / 2 }
    ensures { value_of_text types.bytes text.now ≡ only_if result (cells.text out.new) }
{
    hex::decode_to_slice(text, out).is_ok()
}

// Whether each byte is a digit, none of them a capital.
fn are_lower_digits(text: &[u8]) -> bool
    ensures { result ≡ list_all is_lower_digit text.now }
{
    text.iter()
        .all(|byte| matches!(byte, b'0'..=b'9' | b'a'..=b'f'))
}
