//! Rows that are to rise below a count.
ghost use Rattle.std.specs.Prelude.{◌≡◌, ◌<◌, ◌&&◌, nat_le, nat_lt, length, slice_index};
ghost use Rattle.col_common.specs.Ascending.{are_below};
ghost use Rattle.col_common.specs.Reading.{only_if};
ghost use Rattle.col_index.specs.Sets.{is_row_list};
ghost use Rattle.col_numbers.specs.Readers.{list_of};

use col_common::RowId;
use col_numbers::U64Values;
use col_values::ColumnValues;

/// The row at a place, if it isn't below the next that may come, and is below the count.
#[inline(always)]
pub fn rising_row(num_rows: RowId, next: RowId, rows: &U64Values, at: u32) -> Option<RowId>
    requires { at < length (list_of rows.now) }
    ensures { let row = slice_index (list_of rows.now) at in
        result ≡ only_if (nat_le next row && nat_lt row num_rows) row }
{
    let row = rows.get_val(at);
    if row < u64::from(next) {
        return None;
    }
    if row >= u64::from(num_rows) {
        return None;
    }
    Some(row as RowId)
}

/// Whether the numbers of a list are below a bound.
pub(crate) fn stay_below(bound: u64, numbers: &U64Values) -> bool
    ensures { result ≡ are_below bound (list_of numbers.now) }
{
    numbers.num_vals() == 0 || numbers.max_value() < bound
}

/// Whether the rows of a list rise and stay below the count: they are walked where the list doesn't
/// know whether it rises.
pub fn are_rising_rows(num_rows: RowId, rows: &U64Values) -> bool
    ensures { result ≡ is_row_list num_rows (list_of rows.now) }
{
    if let Some(rising) = rows.rises() {
        return rising && stay_below(u64::from(num_rows), rows);
    }
    let mut next = 0;
    for at in 0..rows.num_vals() {
        let Some(row) = rising_row(num_rows, next, rows, at) else {
            return false;
        };
        next = row + 1;
    }
    true
}
