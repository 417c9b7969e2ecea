//! Where runs start.
ghost use Rattle.std.specs.Prelude.{◌≡◌, ◌^◌, ◌<◌, ◌≤◌, ◌+◌, ◌-◌, ◌*◌, true, length, slice_get, Some, IfOk};
ghost use Rattle.col_common.specs.Ascending.{is_rising};
ghost use Rattle.col_common.specs.Decoding.{Decodes};
ghost use Rattle.col_model.specs.Positions.{rank};
ghost use Rattle.col_numbers.specs.Readers.{list_of};
ghost use Rattle.col_index.specs.RunStarts.{AreNexts};
ghost use Rattle.col_index.specs.Search.{IsNarrowed};
ghost use Rattle.col_index.specs.Sets.{AreRows, is_row_list, set_by};

use crate::counted_rows::CountedRows;
use crate::rank_buckets::{counts_before, part_shift};
use crate::search::narrow_counted;
use col_common::{ColumnarError, RowId, Steps};
use col_numbers::U64Values;
use col_values::ColumnValues;
use std::alloc::{AllocError, Global};
use std::marker::Model;
use std::ops::Range;
use std::sync::ledger::Ledger;

// A part has a fourth of the rows of one with about two starts, so that few parts have more than
// one.
const SMALLER: u32 = 2;

/// Where runs start: in a list, and once more in memory with the greatest number of 32 bits behind
/// them; and how many starts stand before each part of 2 ^ shift rows. Contracts see the row count
/// and the starts.
#[derive(Drop)]
pub(crate) struct RunStarts {
    num_rows: RowId,
    rows: U64Values,
    nexts: Vec<u32>,
    shift: u32,
    before: Vec<u32>,
}

impl Model for RunStarts {
    ghost use Rattle.col_model.specs.Index.{RowSet};
    ghost use Rattle.col_numbers.specs.Readers.{list_of};
    ghost use Rattle.col_index.specs.RunStarts.{AreRunStarts};

    ghost Value = { RowSet };

    ghost view = { λ i. record { num_rows = i.num_rows; rows = list_of i.rows } };

    ghost invariant = { λ i. AreRunStarts
        (record { num_rows = i.num_rows; rows = list_of i.rows })
        i.nexts.items i.shift i.before.items };
}

impl RunStarts {
    /// The starts of a list, if this rises and stays below the count.
    pub(crate) fn from_rows(
        alloc: Global,
        num_rows: RowId,
        rows: U64Values,
    ) -> Result<RunStarts, ColumnarError>
        ensures { Decodes (λ starts. starts) result (set_by num_rows (list_of rows)) }
    {
        let shift = part_shift(num_rows, rows.num_vals()).saturating_sub(SMALLER);
        let before = counts_before(alloc, num_rows, &rows, shift)?;
        let nexts = nexts_of(alloc, num_rows, &rows)?;
        Ok(RunStarts {
            num_rows,
            rows,
            nexts,
            shift,
            before,
        })
    }

    /// The same starts once more, which share the bytes of their list.
    pub(crate) fn try_clone(&self, alloc: Global) -> Result<RunStarts, AllocError>
        ensures { IfOk result (λ starts. starts ≡ self.now) }
    {
        Ok(RunStarts {
            num_rows: self.num_rows,
            rows: self.rows.try_clone(alloc)?,
            nexts: Vec::from_clones(alloc, &self.nexts)?,
            shift: self.shift,
            before: Vec::from_clones(alloc, &self.before)?,
        })
    }

    /// How many rows there are.
    #[inline(always)]
    pub(crate) fn num_docs(&self) -> RowId
        ensures { result ≡ self.now.num_rows }
    {
        self.num_rows
    }

    /// How many runs there are.
    #[inline(always)]
    pub(crate) fn num_non_nulls(&self) -> RowId
        ensures { result ≡ length self.now.rows }
    {
        self.rows.num_vals()
    }

    /// The starts rise and stay below the count.
    #[inline(always)]
    pub(crate) fn rows_rise(&self)
        ensures { AreRows self.now }
    {
        // That the starts are rows is known where a field is read.
        let _ = &self.rows;
    }

    /// How many starts stand before a row, where each look at one of them is a step: they are
    /// searched by halves. Clause `least` keeps a search from passing that counts none of its looks.
    pub(crate) fn rank_counted<L: Ledger>(&self, row_id: RowId, steps: &mut Steps<L>) -> RowId
        ensures rank { result ≡ rank self.now.rows row_id }
        ensures steps { 2 ^ (steps.new - steps.old) ≤ 2 * length self.now.rows + 2 }
        ensures least { length self.now.rows + 2 ≤ 2 * 2 ^ (steps.new - steps.old) }
    {
        self.rows_rise();
        let starts = CountedRows::new(&self.rows);
        narrow_counted(&starts, 0, self.num_non_nulls(), u64::from(row_id), steps)
    }

    /// The start of the run with a number.
    #[inline(always)]
    pub(crate) fn select(&self, number: u32) -> RowId
        requires { number < length self.now.rows }
        ensures { slice_get self.now.rows number ≡ Some result }
    {
        self.nexts[number as usize]
    }

    /// How many runs start at a row or before it. A row behind all others counts as the last one, so
    /// that no row asks for a branch.
    #[inline(always)]
    pub(crate) fn count_upto(&self, row_id: RowId) -> u32
        ensures { result ≡ rank self.now.rows (row_id + 1) }
    {
        // That rows are below a count of 32 bits is known of the count.
        let num_docs = self.num_docs();
        self.rows_rise();
        self.count_among(row_id.min(num_docs.saturating_sub(1)))
    }

    // The same for a row that isn't behind all others.
    #[inline(always)]
    fn count_among(&self, row_id: RowId) -> u32
        requires row { row_id ≤ self.now.num_rows }
        requires small { row_id < 2 ^ 32 - 1 }
        ensures { result ≡ rank self.now.rows (row_id + 1) }
    {
        // That rows are below a count of 32 bits is known of the count.
        let _count = self.num_docs();
        let low = self.part_of(row_id).start as usize;
        let at = low + usize::from(self.nexts[low] <= row_id);
        if self.nexts[at] <= row_id {
            return self.count_in_part(row_id);
        }
        at as u32
    }

    // The same by halves, among the starts of the row's part.
    #[cold]
    #[inline(never)]
    fn count_in_part(&self, row_id: RowId) -> u32
        requires { row_id ≤ self.now.num_rows }
        ensures { result ≡ rank self.now.rows (row_id + 1) }
    {
        let part = self.part_of(row_id);
        count_between(&self.rows, &self.nexts, part.start, part.end, row_id)
    }

    // The starts in the part of a row.
    #[inline(always)]
    fn part_of(&self, row_id: RowId) -> Range<u32>
        requires { row_id ≤ self.now.num_rows }
        ensures { IsNarrowed self.now.rows (row_id + 1) result.start result.end }
    {
        let part = (row_id >> self.shift) as usize;
        self.before[part]..self.before[part + 1]
    }
}

// The starts of a list in memory, and behind them the greatest number of 32 bits.
fn nexts_of(alloc: Global, num_rows: RowId, rows: &U64Values) -> Result<Vec<u32>, AllocError>
    requires { is_row_list num_rows (list_of rows.now) ≡ true }
    ensures { IfOk result (λ nexts. AreNexts (list_of rows.now) nexts.items) }
{
    let mut nexts = Vec::with_capacity(alloc, rows.num_vals() as usize + 1)?;
    for at in 0..rows.num_vals() {
        nexts.push(rows.get_val(at) as u32)?;
    }
    nexts.push(u32::MAX)?;
    Ok(nexts)
}

// How many of the starts aren't behind a row, where those before `low` aren't, and those from
// `high` on are: by halves.
fn count_between(rows: &U64Values, nexts: &[u32], low: u32, high: u32, row_id: RowId) -> u32
    requires rising { is_rising (list_of rows.now) ≡ true }
    requires nexts { AreNexts (list_of rows.now) nexts.now }
    requires narrowed { IsNarrowed (list_of rows.now) (row_id + 1) low high }
    ensures { result ≡ rank (list_of rows.now) (row_id + 1) }
{
    let mut low = low;
    let mut high = high;
    while low < high {
        let middle = low + (high - low) / 2;
        if nexts[middle as usize] <= row_id {
            low = middle + 1;
        } else {
            high = middle;
        }
    }
    low
}
