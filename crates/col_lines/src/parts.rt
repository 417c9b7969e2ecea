//! The parts of a line: numbers and rows.
ghost use Rattle.std.specs.Prelude.{◌≡◌, IfOk, option_map, map};
ghost use Rattle.serde_json.specs.View.{view};
ghost use Rattle.col_model.specs.File.{for_each};
ghost use Rattle.col_program.specs.Script.{as_address};
ghost use Rattle.col_program.specs.Values.{as_u32};
ghost use Rattle.col_order.specs.Orders.{address_of};
ghost use Rattle.col_lines.specs.Parts.{address_among, rows_as};

use col_common::RowAddr;
use serde_json::Value;
use std::alloc::{AllocError, Global};

/// A whole number below 2^32.
pub fn as_u32(value: &Value) -> Option<u32>
    ensures { result ≡ as_u32 (view value.now) }
{
    u32::try_from(value.as_u64()?).ok()
}

/// The rows of a list of pairs.
pub fn as_rows(alloc: Global, value: &Value) -> Result<Option<Vec<RowAddr>>, AllocError>
    ensures { IfOk result (λ rows. option_map (λ v. map address_of v.items) rows
        ≡ rows_as (view value.now)) }
{
    match value {
        Value::Array(pairs) => rows_of(alloc, pairs.as_slice()),
        _ => Ok(None),
    }
}

fn rows_of(alloc: Global, values: &[Value]) -> Result<Option<Vec<RowAddr>>, AllocError>
    ensures { IfOk result (λ rows. option_map (λ v. map address_of v.items) rows
        ≡ for_each as_address (map view values.now)) }
{
    let mut rows = Vec::with_capacity(alloc, values.len())?;
    'values: for value in values {
        let Some(row) = as_row(value) else {
            return Ok(None);
        };
        rows.push(row)?;
    }
    Ok(Some(rows))
}

// The row of a pair of numbers.
fn as_row(value: &Value) -> Option<RowAddr>
    ensures { option_map address_of result ≡ as_address (view value.now) }
{
    match value {
        Value::Array(parts) => row_of(parts.as_slice()),
        _ => None,
    }
}

fn row_of(parts: &[Value]) -> Option<RowAddr>
    ensures { option_map address_of result ≡ address_among (map view parts.now) }
{
    match parts {
        [segment_ord, row_id] => Some(RowAddr {
            segment_ord: as_u32(segment_ord)?,
            row_id: as_u32(row_id)?,
        }),
        _ => None,
    }
}
