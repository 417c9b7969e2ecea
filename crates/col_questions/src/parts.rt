//! The parts of a script's lines: texts, types, bytes and addresses.
ghost use Rattle.std.specs.Prelude.{◌≡◌, IfOk, option_map, string_bytes};
ghost use Rattle.serde_json.specs.Data.{string};
ghost use Rattle.serde_json.specs.Find.{as_str};
ghost use Rattle.serde_json.specs.View.{view};
ghost use Rattle.col_model.specs.ColumnType as types;
ghost use Rattle.col_program.specs.Values.{as_type, type_named, hex_bytes, as_cell};
ghost use Rattle.col_types.specs.Cells.{unsigned_cell};
ghost use Rattle.col_types.specs.Kinds.{kind_of};

use col_common::Ipv6Addr;
use col_types::ColumnType;
use hex::{FromHex, FromHexError};
use serde_json::Value;
use std::alloc::{AllocError, Global};

/// A text, which is taken out.
pub fn take_text(value: &mut Value) -> Option<String>
    ensures { option_map string_bytes result ≡ as_str (view value.old) }
{
    match value.take() {
        Value::String(text) => Some(text),
        _ => None,
    }
}

/// The type that a text names.
pub fn as_type(value: &Value) -> Option<ColumnType>
    ensures { option_map kind_of result ≡ as_type (view value.now) }
{
    let Some(word) = value.as_str() else {
        return None;
    };
    type_named(word)
}

/// The type of a name.
pub fn type_named(word: &str) -> Option<ColumnType>
    ensures { option_map kind_of result ≡ type_named word.now }
{
    match word {
        "i64" => Some(ColumnType::I64),
        "u64" => Some(ColumnType::U64),
        "bytes" => Some(ColumnType::Bytes),
        "str" => Some(ColumnType::Str),
        "bool" => Some(ColumnType::Bool),
        "ip" => Some(ColumnType::IpAddr),
        "datetime" => Some(ColumnType::DateTime),
        _ => None,
    }
}

/// The bytes of a text of hexadecimal digits.
pub fn as_bytes(alloc: Global, value: &Value) -> Result<Option<Vec<u8>>, AllocError>
    ensures { IfOk result
        (λ bytes. option_map (λ v. v.items) bytes ≡ hex_bytes (view value.now)) }
{
    match value.as_str() {
        Some(digits) => bytes_spelled(alloc, digits),
        None => Ok(None),
    }
}

/// The bytes that hexadecimal digits spell.
pub fn bytes_spelled(alloc: Global, digits: &str) -> Result<Option<Vec<u8>>, AllocError>
    ensures { IfOk result
        (λ bytes. option_map (λ v. v.items) bytes ≡ hex_bytes (string digits.now)) }
{
    match hex::decode(alloc, digits) {
        Ok(bytes) => Ok(Some(bytes)),
        Err(FromHexError::OutOfMemory) => Err(AllocError),
        Err(_) => Ok(None),
    }
}

/// The address of a text of 32 hexadecimal digits.
pub fn as_ip_addr(value: &Value) -> Option<Ipv6Addr>
    ensures { option_map unsigned_cell result ≡ as_cell types.ip (view value.now) }
{
    match value.as_str() {
        Some(digits) => ip_addr_spelled(digits),
        None => None,
    }
}

/// The address that 32 hexadecimal digits spell.
pub fn ip_addr_spelled(digits: &str) -> Option<Ipv6Addr>
    ensures { option_map unsigned_cell result ≡ as_cell types.ip (string digits.now) }
{
    match <[u8; 16] as FromHex>::from_hex(digits) {
        Ok(octets) => Some(Ipv6Addr::from(octets)),
        Err(_) => None,
    }
}
