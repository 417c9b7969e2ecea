//! Values of a type as ends of ranges.
ghost use Rattle.std.specs.Prelude.{◌≡◌, IfOk, IfErr};
ghost use Rattle.serde_json.specs.View.{view};
ghost use Rattle.col_model.specs.ColumnType as types;
ghost use Rattle.col_program.specs.Queries.{as_end};
ghost use Rattle.col_types.specs.Kinds.{kind_of};
ghost use Rattle.col_questions.specs.Steps.{IsEnd};

use crate::parts::{as_bytes, as_ip_addr};
use crate::query_error::QueryError;
use crate::query_value::QueryValue;
use col_types::{ColumnType, TermBytes};
use serde_json::Value;
use std::alloc::Global;

// A value of the type, as an end.
pub(crate) fn value_of_type(
    alloc: Global,
    column_type: ColumnType,
    value: &Value,
) -> Result<QueryValue, QueryError>
    ensures ok { IfOk result (IsEnd (kind_of column_type) (view value.now)) }
    ensures shape { IfErr result (λ e. e ≡ QueryError.Shape
        → as_end (kind_of column_type) (view value.now) ≡ None) }
{
    match column_type {
        ColumnType::I64 | ColumnType::DateTime => signed_end(value),
        ColumnType::U64 => unsigned_end(value),
        ColumnType::Bool => flag_end(value),
        ColumnType::IpAddr => address_end(value),
        ColumnType::Str => text_end(alloc, value),
        ColumnType::Bytes => bytes_end(alloc, value),
    }
}

fn signed_end(value: &Value) -> Result<QueryValue, QueryError>
    ensures ok { IfOk result (IsEnd types.i64 (view value.now)) }
    ensures time { IfOk result (IsEnd types.datetime (view value.now)) }
    ensures shape { IfErr result (λ e. as_end types.i64 (view value.now) ≡ None) }
{
    match value.as_i64() {
        Some(number) => Ok(QueryValue::Num(i128::from(number))),
        None => Err(QueryError::Shape),
    }
}

fn unsigned_end(value: &Value) -> Result<QueryValue, QueryError>
    ensures ok { IfOk result (IsEnd types.u64 (view value.now)) }
    ensures shape { IfErr result (λ e. as_end types.u64 (view value.now) ≡ None) }
{
    match value.as_u64() {
        Some(number) => Ok(QueryValue::Num(i128::from(number))),
        None => Err(QueryError::Shape),
    }
}

fn flag_end(value: &Value) -> Result<QueryValue, QueryError>
    ensures ok { IfOk result (IsEnd types.bool (view value.now)) }
    ensures shape { IfErr result (λ e. as_end types.bool (view value.now) ≡ None) }
{
    match value.as_bool() {
        Some(flag) => Ok(QueryValue::Num(if flag { 1 } else { 0 })),
        None => Err(QueryError::Shape),
    }
}

fn address_end(value: &Value) -> Result<QueryValue, QueryError>
    ensures ok { IfOk result (IsEnd types.ip (view value.now)) }
    ensures shape { IfErr result (λ e. as_end types.ip (view value.now) ≡ None) }
{
    match as_ip_addr(value) {
        Some(address) => Ok(QueryValue::Addr(address.to_bits())),
        None => Err(QueryError::Shape),
    }
}

fn text_end(alloc: Global, value: &Value) -> Result<QueryValue, QueryError>
    ensures ok { IfOk result (IsEnd types.str (view value.now)) }
    ensures shape { IfErr result (λ e. e ≡ QueryError.Shape
        → as_end types.str (view value.now) ≡ None) }
{
    match value.as_str() {
        Some(text) => {
            let bytes = Vec::from_slice(alloc, text.as_bytes())?;
            Ok(QueryValue::Term(TermBytes::from_vec(bytes)))
        }
        None => Err(QueryError::Shape),
    }
}

fn bytes_end(alloc: Global, value: &Value) -> Result<QueryValue, QueryError>
    ensures ok { IfOk result (IsEnd types.bytes (view value.now)) }
    ensures shape { IfErr result (λ e. e ≡ QueryError.Shape
        → as_end types.bytes (view value.now) ≡ None) }
{
    match as_bytes(alloc, value)? {
        Some(bytes) => Ok(QueryValue::Term(TermBytes::from_vec(bytes))),
        None => Err(QueryError::Shape),
    }
}
