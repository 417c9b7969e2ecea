//! The sums of the lengths of runs.
ghost use Rattle.std.specs.Prelude.{◌<◌, ◌+◌, ◌≡◌, ◌&&◌, nat_le, nat_lt, length, slice_index, IfOk};
ghost use Rattle.col_common.specs.Decoding.{Decodes};
ghost use Rattle.col_common.specs.Reading.{only_if};
ghost use Rattle.col_numbers.specs.Readers.{list_of};
ghost use Rattle.col_index.specs.Runs.{AreGaps, run_sums};

use col_common::{ColumnarError, RowId};
use col_numbers::U64Values;
use col_values::ColumnValues;
use std::alloc::Global;

/// How many rows stand before each run and in all; and for so many of the runs, from none on, how
/// many rows there are outside of runs before the last of them.
#[derive(Drop)]
pub(crate) struct RunSums {
    pub before: Vec<u32>,
    pub gaps: Vec<u32>,
}

/// The sums of runs, if these are runs of so many rows.
pub(crate) fn sum_runs(
    alloc: Global,
    num_rows: RowId,
    starts: &U64Values,
    lengths: &U64Values,
) -> Result<RunSums, ColumnarError>
    ensures before { Decodes (λ sums. sums.before.items) result
        (run_sums num_rows (list_of starts.now) (list_of lengths.now)) }
    ensures gaps { IfOk result (λ sums.
        AreGaps (list_of starts.now) sums.before.items sums.gaps.items) }
{
    let count = starts.num_vals();
    if count != lengths.num_vals() {
        return Err(ColumnarError::InvalidData);
    }
    let mut before = Vec::with_capacity(alloc, count as usize + 1)?;
    let mut gaps = Vec::with_capacity(alloc, count as usize + 1)?;
    gaps.push(0)?;
    let mut next = 0;
    let mut total = 0;
    for at in 0..count {
        let Some((end, len)) = run_at(num_rows, next, starts, lengths, at) else {
            return Err(ColumnarError::InvalidData);
        };
        before.push(total)?;
        gaps.push(end - len - total)?;
        total += len;
        next = u64::from(end) + 1;
    }
    before.push(total)?;
    Ok(RunSums { before, gaps })
}

// Where a run ends and how many rows it has, if it begins at or behind the next row that may come,
// has a row, and ends by the count.
fn run_at(
    num_rows: RowId,
    next: u64,
    starts: &U64Values,
    lengths: &U64Values,
    at: u32,
) -> Option<(RowId, u32)>
    requires start { at < length (list_of starts.now) }
    requires len { at < length (list_of lengths.now) }
    ensures { let start = slice_index (list_of starts.now) at in
        let len = slice_index (list_of lengths.now) at in
        result ≡ only_if (nat_le next start && nat_lt 0 len && nat_le (start + len) num_rows)
        (start + len, len) }
{
    let start = starts.get_val(at);
    let len = lengths.get_val(at);
    let count = u64::from(num_rows);
    if start < next || start >= count {
        return None;
    }
    if len == 0 || len > count - start {
        return None;
    }
    Some(((start + len) as RowId, len as u32))
}
