//! Values of a type, and pairs of them as the ends of a lookup.
ghost use Rattle.std.specs.Prelude.{◌≡◌, IfOk, option_map};
ghost use Rattle.serde_json.specs.View.{view};
ghost use Rattle.col_model.specs.ColumnType as types;
ghost use Rattle.col_types.specs.Kinds.{kind_of};
ghost use Rattle.col_questions.specs.Values.{typed_cell, typed_as, ends_of, ends_as};

use crate::lookup::Ends;
use crate::parts::{as_bytes, as_ip_addr, take_text};
use col_common::{DateTime, Ipv6Addr};
use col_types::ColumnType;
use serde_json::Value;
use std::alloc::{AllocError, Global};

/// A value of one of the types.
#[derive(Debug, Drop)]
pub enum TypedValue {
    I64(i64),
    U64(u64),
    Bytes(Vec<u8>),
    Str(String),
    Bool(bool),
    IpAddr(Ipv6Addr),
    DateTime(DateTime),
}

/// A value of the type, which is taken out.
pub fn take_value(
    alloc: Global,
    column_type: ColumnType,
    value: &mut Value,
) -> Result<Option<TypedValue>, AllocError>
    ensures { IfOk result (λ found. option_map typed_cell found
        ≡ typed_as (kind_of column_type) (view value.old)) }
{
    match column_type {
        ColumnType::I64 => Ok(i64_value(value)),
        ColumnType::U64 => Ok(u64_value(value)),
        ColumnType::Bytes => bytes_value(alloc, value),
        ColumnType::Str => Ok(str_value(value)),
        ColumnType::Bool => Ok(bool_value(value)),
        ColumnType::IpAddr => Ok(ip_addr_value(value)),
        ColumnType::DateTime => Ok(datetime_value(value)),
    }
}

fn i64_value(value: &Value) -> Option<TypedValue>
    ensures { option_map typed_cell result ≡ typed_as types.i64 (view value.now) }
{
    Some(TypedValue::I64(value.as_i64()?))
}

fn u64_value(value: &Value) -> Option<TypedValue>
    ensures { option_map typed_cell result ≡ typed_as types.u64 (view value.now) }
{
    Some(TypedValue::U64(value.as_u64()?))
}

fn bytes_value(alloc: Global, value: &Value) -> Result<Option<TypedValue>, AllocError>
    ensures { IfOk result (λ found. option_map typed_cell found
        ≡ typed_as types.bytes (view value.now)) }
{
    match as_bytes(alloc, value)? {
        Some(bytes) => Ok(Some(TypedValue::Bytes(bytes))),
        None => Ok(None),
    }
}

fn str_value(value: &mut Value) -> Option<TypedValue>
    ensures { option_map typed_cell result ≡ typed_as types.str (view value.old) }
{
    Some(TypedValue::Str(take_text(value)?))
}

fn bool_value(value: &Value) -> Option<TypedValue>
    ensures { option_map typed_cell result ≡ typed_as types.bool (view value.now) }
{
    Some(TypedValue::Bool(value.as_bool()?))
}

fn ip_addr_value(value: &Value) -> Option<TypedValue>
    ensures { option_map typed_cell result ≡ typed_as types.ip (view value.now) }
{
    Some(TypedValue::IpAddr(as_ip_addr(value)?))
}

fn datetime_value(value: &Value) -> Option<TypedValue>
    ensures { option_map typed_cell result ≡ typed_as types.datetime (view value.now) }
{
    Some(TypedValue::DateTime(DateTime::from_timestamp_nanos(value.as_i64()?)))
}

/// Two values of the type as the ends of a lookup, which are taken out.
pub fn take_ends(
    alloc: Global,
    column_type: ColumnType,
    lo: &mut Value,
    hi: &mut Value,
) -> Result<Option<Ends>, AllocError>
    ensures { IfOk result (λ ends. option_map ends_of ends
        ≡ ends_as (kind_of column_type) (view lo.old) (view hi.old)) }
{
    match column_type {
        ColumnType::I64 => Ok(i64_ends(lo, hi)),
        ColumnType::U64 => Ok(u64_ends(lo, hi)),
        ColumnType::Bytes => bytes_ends(alloc, lo, hi),
        ColumnType::Str => Ok(str_ends(lo, hi)),
        ColumnType::Bool => Ok(bool_ends(lo, hi)),
        ColumnType::IpAddr => Ok(ip_addr_ends(lo, hi)),
        ColumnType::DateTime => Ok(datetime_ends(lo, hi)),
    }
}

fn i64_ends(lo: &Value, hi: &Value) -> Option<Ends>
    ensures { option_map ends_of result ≡ ends_as types.i64 (view lo.now) (view hi.now) }
{
    Some(Ends::I64 {
        lo: lo.as_i64()?,
        hi: hi.as_i64()?,
    })
}

fn u64_ends(lo: &Value, hi: &Value) -> Option<Ends>
    ensures { option_map ends_of result ≡ ends_as types.u64 (view lo.now) (view hi.now) }
{
    Some(Ends::U64 {
        lo: lo.as_u64()?,
        hi: hi.as_u64()?,
    })
}

fn bytes_ends(alloc: Global, lo: &Value, hi: &Value) -> Result<Option<Ends>, AllocError>
    ensures { IfOk result (λ ends. option_map ends_of ends
        ≡ ends_as types.bytes (view lo.now) (view hi.now)) }
{
    let Some(lo) = as_bytes(alloc, lo)? else {
        return Ok(None);
    };
    let Some(hi) = as_bytes(alloc, hi)? else {
        return Ok(None);
    };
    Ok(Some(Ends::Bytes { lo, hi }))
}

fn str_ends(lo: &mut Value, hi: &mut Value) -> Option<Ends>
    ensures { option_map ends_of result ≡ ends_as types.str (view lo.old) (view hi.old) }
{
    Some(Ends::Str {
        lo: take_text(lo)?,
        hi: take_text(hi)?,
    })
}

fn bool_ends(lo: &Value, hi: &Value) -> Option<Ends>
    ensures { option_map ends_of result ≡ ends_as types.bool (view lo.now) (view hi.now) }
{
    Some(Ends::Bool {
        lo: lo.as_bool()?,
        hi: hi.as_bool()?,
    })
}

fn ip_addr_ends(lo: &Value, hi: &Value) -> Option<Ends>
    ensures { option_map ends_of result ≡ ends_as types.ip (view lo.now) (view hi.now) }
{
    Some(Ends::IpAddr {
        lo: as_ip_addr(lo)?,
        hi: as_ip_addr(hi)?,
    })
}

fn datetime_ends(lo: &Value, hi: &Value) -> Option<Ends>
    ensures { option_map ends_of result ≡ ends_as types.datetime (view lo.now) (view hi.now) }
{
    Some(Ends::DateTime {
        lo: DateTime::from_timestamp_nanos(lo.as_i64()?),
        hi: DateTime::from_timestamp_nanos(hi.as_i64()?),
    })
}
