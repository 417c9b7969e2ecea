//! The ids of rows that a line drops.
ghost use Rattle.std.specs.Prelude.{◌≡◌, IfOk, option_map, map};
ghost use Rattle.serde_json.specs.View.{view};
ghost use Rattle.col_model.specs.File.{for_each};
ghost use Rattle.col_program.specs.Values.{as_u32};
ghost use Rattle.col_set_script.specs.Lines.{ids_as};

use col_common::RowId;
use col_lines::as_u32;
use serde_json::Value;
use std::alloc::{AllocError, Global};

// The ids of a list of numbers.
pub(crate) fn as_ids(alloc: Global, value: &Value) -> Result<Option<Vec<RowId>>, AllocError>
    ensures { IfOk result (λ ids. option_map (λ v. v.items) ids ≡ ids_as (view value.now)) }
{
    match value {
        Value::Array(ids) => ids_of(alloc, ids.as_slice()),
        _ => Ok(None),
    }
}

fn ids_of(alloc: Global, values: &[Value]) -> Result<Option<Vec<RowId>>, AllocError>
    ensures { IfOk result (λ ids. option_map (λ v. v.items) ids
        ≡ for_each as_u32 (map view values.now)) }
{
    let mut ids = Vec::with_capacity(alloc, values.len())?;
    'values: for value in values {
        let Some(id) = as_u32(value) else {
            return Ok(None);
        };
        ids.push(id)?;
    }
    Ok(Some(ids))
}
