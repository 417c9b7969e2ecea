//! The places of rows that are alive and have a value of a range.
ghost use Rattle.std.specs.Prelude.{◌≡◌, ◌<◌, ◌+◌, ◌++◌, ◌^◌, length, true, OnOk};
ghost use Rattle.col_dynamic.specs.Dynamic.{type_of, content_of};
ghost use Rattle.col_model.specs.Lookup.{row_of};
ghost use Rattle.col_places.specs.Places.{places_of};
ghost use Rattle.col_places.specs.Ranges.{are_cells_of, is_row_between};
ghost use Rattle.col_questions.specs.Steps.{end_of};

use crate::Alive;
use crate::ends::put_rows;
use crate::walk::push_alive;
use col_common::RowId;
use col_dynamic::DynamicColumn;
use col_questions::QueryValue;
use std::alloc::{AllocError, Global};

/// Appends the places of the rows alive that have a value of the column from one end to the other.
/// Places are counted from the first row alive on. Ends of another kind than the column's values
/// find none.
pub fn push_places(
    alloc: Global,
    column: &DynamicColumn,
    lo: &QueryValue,
    hi: &QueryValue,
    alive: &Alive,
    first: RowId,
    places: &mut Vec<RowId>,
) -> Result<(), AllocError>
    requires rows { length (content_of column.now).rows ≡ alive.now.count }
    requires cells { are_cells_of (type_of column.now) (content_of column.now) ≡ true }
    requires room { first + length alive.now.rows < 2 ^ 32 }
    ensures { OnOk result (places.new.items ≡ places.old.items ++ places_of first
        (λ r. is_row_between (type_of column.now) (end_of lo.now) (end_of hi.now)
        (row_of (content_of column.now) r)) alive.now.rows) }
{
    let mut rows = Vec::new(alloc);
    put_rows(column, lo, hi, alive.num_rows, &mut rows)?;
    push_alive(&rows, alive, first, places)
}
