//! The lines of a report on a set.
ghost use Rattle.std.specs.Prelude.{◌≡◌, ◌∷◌, [], codes, map, IfOk, OnOk};
ghost use Rattle.serde_json.specs.Data.{string};
ghost use Rattle.serde_json.specs.View.{view};
ghost use Rattle.col_program.specs.Report.{count_data, list_data, rows_line, Prints};
ghost use Rattle.col_types.specs.Kinds.{kind_of};
ghost use Rattle.col_set_run.specs.Outcome.{found_line};

use col_common::RowId;
use col_lines::push_line;
use col_types::ColumnType;
use serde_json::{Value, json};
use std::alloc::{AllocError, Global};

/// Appends the line of a row count.
pub fn push_rows(alloc: Global, count: RowId, out: &mut Vec<u8>) -> Result<(), AllocError>
    ensures { OnOk result (Prints out.old.items out.new.items (rows_line count ∷ [])) }
{
    let line = rows_value(alloc, count)?;
    push_line(alloc, out, &line)
}

fn rows_value(alloc: Global, count: RowId) -> Result<Value, AllocError>
    ensures { IfOk result (λ v. view v ≡ rows_line count) }
{
    json!(in alloc; ["rows", count])
}

// Appends the line of a lookup: the name and the type that it asks for, and the places that it
// found.
pub(crate) fn push_found(
    alloc: Global,
    name: &str,
    column_type: ColumnType,
    places: &[RowId],
    out: &mut Vec<u8>,
) -> Result<(), AllocError>
    ensures { OnOk result (Prints out.old.items out.new.items
        (found_line name.now (kind_of column_type) places.now ∷ [])) }
{
    let ids = ids_value(alloc, places)?;
    let line = found_value(alloc, name, column_type.word(), ids)?;
    push_line(alloc, out, &line)
}

fn found_value(alloc: Global, name: &str, word: &str, ids: Value) -> Result<Value, AllocError>
    ensures { IfOk result (λ v. view v ≡ list_data (string (codes "find") ∷ string name.now
        ∷ string word.now ∷ view ids ∷ [])) }
{
    json!(in alloc; ["find", name, word, ids])
}

// An array of ids.
fn ids_value(alloc: Global, ids: &[RowId]) -> Result<Value, AllocError>
    ensures { IfOk result (λ v. view v ≡ list_data (map count_data ids.now)) }
{
    let mut values = Vec::with_capacity(alloc, ids.len())?;
    for id in ids {
        values.push(Value::from(*id))?;
    }
    Ok(Value::Array(values))
}
