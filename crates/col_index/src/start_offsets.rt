//! Start offsets: where the values of rows start, and behind the last where they end.
ghost use Rattle.std.specs.Prelude.{◌≡◌, ◌++◌, OnOk};
ghost use Rattle.col_common.specs.Ascending.{differences};
ghost use Rattle.col_model.specs.Positions.{rows_with_value, starts_of};
ghost use Rattle.col_numbers.specs.Readers.{list_of};
ghost use Rattle.col_index.specs.Offsets.{AreOldOffsets, is_start_list};

use crate::rising::stay_below;
use col_common::RowId;
use col_numbers::U64Values;
use col_values::ColumnValues;
use std::alloc::AllocError;

/// The numbers of 32 bits are below this.
pub(crate) const OFFSETS: u64 = 1 << 32;

/// Whether numbers are start offsets of so many rows: they are walked where the list doesn't know
/// whether it rises.
pub(crate) fn are_starts(num_rows: RowId, starts: &U64Values) -> bool
    ensures { result ≡ is_start_list num_rows (list_of starts.now) }
{
    let count = starts.num_vals();
    if u64::from(count) != u64::from(num_rows) + 1 {
        return false;
    }
    if starts.get_val(0) != 0 {
        return false;
    }
    if let Some(rising) = starts.rises() {
        return rising && stay_below(OFFSETS, starts);
    }
    let mut last = 0;
    for at in 1..count {
        let start = starts.get_val(at);
        if start <= last {
            return false;
        }
        if start > u64::from(u32::MAX) {
            return false;
        }
        last = start;
    }
    true
}

/// Appends the rows with a value, and where the values of each start, and those of the last end.
pub(crate) fn push_runs(
    start_offsets: &[RowId],
    rows: &mut Vec<RowId>,
    starts: &mut Vec<RowId>,
) -> Result<(), AllocError>
    requires { AreOldOffsets start_offsets.now }
    ensures rows { OnOk result (rows.new.items ≡ rows.old.items
        ++ rows_with_value (differences start_offsets.now)) }
    ensures starts { OnOk result (starts.new.items ≡ starts.old.items
        ++ starts_of (differences start_offsets.now)) }
{
    let last = start_offsets.len() - 1;
    for row in 0..last {
        let start = start_offsets[row];
        if start_offsets[row + 1] == start {
            continue;
        }
        rows.push(row as RowId)?;
        starts.push(start)?;
    }
    starts.push(start_offsets[last])?;
    Ok(())
}
