//! Few rows with ranks for parts of them.
ghost use Rattle.std.specs.Prelude.{◌≡◌, ◌≤◌, ◌<◌, ◌+◌, ◌*◌, ◌/◌, ◌^◌, true, length, replicate, sum, take, slice_index};
ghost use Rattle.std.specs.Prelude.{IfOk};
ghost use Rattle.col_common.specs.Decoding.{Decodes};
ghost use Rattle.col_common.specs.Reading.{only_if};
ghost use Rattle.col_common.specs.Ascending.{is_rising};
ghost use Rattle.col_model.specs.Positions.{rank};
ghost use Rattle.col_numbers.specs.Readers.{list_of};
ghost use Rattle.col_index.specs.Sets.{holds, is_row_list, set_by};
ghost use Rattle.col_index.specs.Ranks.{AreBuckets, AreCounts, ArePartCounts, AreSums};
ghost use Rattle.col_index.specs.RowLows.{KeepsLows};
ghost use Rattle.col_index.specs.Search.{IsNarrowed};

use crate::rising::rising_row;
use crate::row_lows::{LOW_BITS, lows_of, rank_by_lows, rank_by_lows_if_exists};
use crate::search::{is_listed_at, narrow};
use col_common::{ColumnarError, RowId};
use col_numbers::U64Values;
use col_values::ColumnValues;
use std::alloc::{AllocError, Global};
use std::ops::Range;

// The half of all numbers of rows, as a power of 2.
const HALF_SHIFT: u32 = 31;

/// For parts of 2 ^ shift rows how many rows before each part, and before the end, have a value;
/// and the low bits of those rows, where they tell the rows of a part apart.
#[derive(Drop)]
pub struct RankBuckets {
    pub shift: u32,
    pub before: Vec<u32>,
    pub lows: Vec<u16>,
}

impl RankBuckets {
    /// Two parts of 2 ^ 31 rows, of a list that rises and stays below the count.
    pub(crate) fn of_halves(
        alloc: Global,
        num_rows: RowId,
        rows: &U64Values,
    ) -> Result<RankBuckets, AllocError>
        requires { is_row_list num_rows (list_of rows.now) ≡ true }
        ensures ranks { IfOk result (λ ranks.
            AreBuckets (list_of rows.now) num_rows ranks.shift ranks.before.items) }
        ensures lows { IfOk result (λ ranks.
            KeepsLows (list_of rows.now) ranks.shift ranks.lows.items) }
    {
        let count = rows.num_vals();
        let middle = narrow(rows, 0, count, 1 << HALF_SHIFT);
        Ok(RankBuckets {
            shift: HALF_SHIFT,
            before: vec![in alloc; 0, middle, count]?,
            lows: Vec::new(alloc),
        })
    }

    /// The parts of rows, if these rise and stay below the count.
    pub fn from_rows(
        alloc: Global,
        num_rows: RowId,
        rows: &U64Values,
    ) -> Result<RankBuckets, ColumnarError>
        ensures rows { Decodes (λ ranks. record { num_rows = num_rows; rows = list_of rows.now })
            result (set_by num_rows (list_of rows.now)) }
        ensures ranks { IfOk result (λ ranks.
            AreBuckets (list_of rows.now) num_rows ranks.shift ranks.before.items) }
        ensures lows { IfOk result (λ ranks.
            KeepsLows (list_of rows.now) ranks.shift ranks.lows.items) }
    {
        let shift = part_shift(num_rows, rows.num_vals());
        let before = counts_before(alloc, num_rows, rows, shift)?;
        let lows = lows_of(alloc, rows, shift)?;
        Ok(RankBuckets {
            shift,
            before,
            lows,
        })
    }

    /// The same once more.
    pub fn try_clone(&self, alloc: Global) -> Result<RankBuckets, AllocError>
        ensures shift { IfOk result (λ ranks. ranks.shift ≡ self.now.shift) }
        ensures before { IfOk result (λ ranks. ranks.before.items ≡ self.now.before.items) }
        ensures lows { IfOk result (λ ranks. ranks.lows.items ≡ self.now.lows.items) }
    {
        Ok(RankBuckets {
            shift: self.shift,
            before: Vec::from_clones(alloc, &self.before)?,
            lows: Vec::from_clones(alloc, &self.lows)?,
        })
    }

    // How many rows before the part of a row have a value, and before the next part.
    #[inline(always)]
    fn part_of(&self, num_rows: RowId, rows: &U64Values, row: RowId) -> Range<u32>
        requires buckets { AreBuckets (list_of rows.now) num_rows
            self.now.shift self.now.before.items }
        requires row { row < num_rows }
        ensures start { let rows_apart = 2 ^ self.now.shift in
            result.start ≡ rank (list_of rows.now) (rows_apart * (row / rows_apart)) }
        ensures end { let rows_apart = 2 ^ self.now.shift in
            result.end ≡ rank (list_of rows.now) (rows_apart * (row / rows_apart + 1)) }
    {
        let part = (row >> self.shift) as usize;
        self.before[part]..self.before[part + 1]
    }

    /// How many rows before a row have a value, by the list of those that have one.
    #[inline(always)]
    pub fn rank(&self, num_rows: RowId, rows: &U64Values, row: RowId) -> RowId
        requires rising { is_rising (list_of rows.now) ≡ true }
        requires buckets { AreBuckets (list_of rows.now) num_rows
            self.now.shift self.now.before.items }
        requires lows { KeepsLows (list_of rows.now) self.now.shift self.now.lows.items }
        requires row { row < num_rows }
        ensures { result ≡ rank (list_of rows.now) row }
    {
        let part = self.part_of(num_rows, rows, row);
        if self.shift > LOW_BITS {
            return narrow(rows, part.start, part.end, u64::from(row));
        }
        rank_by_lows(rows, &self.lows, part.start, part.end, row)
    }

    /// The rank of a row that has a value, by their list.
    #[inline(always)]
    pub fn rank_if_exists(&self, num_rows: RowId, rows: &U64Values, row: RowId) -> Option<RowId>
        requires rising { is_rising (list_of rows.now) ≡ true }
        requires buckets { AreBuckets (list_of rows.now) num_rows
            self.now.shift self.now.before.items }
        requires lows { KeepsLows (list_of rows.now) self.now.shift self.now.lows.items }
        requires row { row < num_rows }
        ensures { result ≡ only_if (holds (list_of rows.now) row) (rank (list_of rows.now) row) }
    {
        let part = self.part_of(num_rows, rows, row);
        if self.shift > LOW_BITS {
            return narrow_if_exists(rows, part.start, part.end, row);
        }
        rank_by_lows_if_exists(rows, &self.lows, part.start, part.end, row)
    }
}

// The rank of a row that has a value, by halves between two places.
#[inline(never)]
fn narrow_if_exists(rows: &U64Values, low: u32, high: u32, row: RowId) -> Option<RowId>
    requires rising { is_rising (list_of rows.now) ≡ true }
    requires narrowed { IsNarrowed (list_of rows.now) row low high }
    ensures { result ≡ only_if (holds (list_of rows.now) row) (rank (list_of rows.now) row) }
{
    let rank = narrow(rows, low, high, u64::from(row));
    if is_listed_at(rows, rank, row) {
        return Some(rank);
    }
    None
}

/// How many of the rows stand before each part of 2 ^ shift rows, and before the end, if the rows
/// rise and stay below the count.
pub(crate) fn counts_before(
    alloc: Global,
    num_rows: RowId,
    rows: &U64Values,
    shift: u32,
) -> Result<Vec<u32>, ColumnarError>
    requires { shift < 32 }
    ensures rows { Decodes (λ before. record { num_rows = num_rows; rows = list_of rows.now })
        result (set_by num_rows (list_of rows.now)) }
    ensures counts { IfOk result (λ before.
        AreBuckets (list_of rows.now) num_rows shift before.items) }
{
    let mut counts = vec![in alloc; 0; (num_rows >> shift) as usize + 1]?;
    if !count_rows(num_rows, rows, shift, &mut counts) {
        return Err(ColumnarError::InvalidData);
    }
    Ok(sums_before(alloc, &counts)?)
}

/// A shift with about two of the rows that have a value in each part.
pub(crate) fn part_shift(num_rows: RowId, num_vals: u32) -> u32
    ensures { result < 32 }
{
    let apart = num_rows / num_vals.max(1);
    (u32::BITS - apart.leading_zeros()).min(31)
}

// Counts rows by their parts as far as they rise and stay below the count; whether all of them do.
fn count_rows(num_rows: RowId, rows: &U64Values, shift: u32, counts: &mut [u32]) -> bool
    requires short { shift < 32 }
    requires room { length counts.old ≡ num_rows / 2 ^ shift + 1 }
    requires clear { counts.old ≡ replicate (length counts.old) 0 }
    ensures rows { result ≡ is_row_list num_rows (list_of rows.now) }
    ensures counts { result ≡ true → ArePartCounts (list_of rows.now) (2 ^ shift) counts.new }
{
    let mut next = 0;
    for at in 0..rows.num_vals() {
        let Some(row) = rising_row(num_rows, next, rows, at) else {
            return false;
        };
        counts[(row >> shift) as usize] += 1;
        next = row + 1;
    }
    true
}

// The sum of the counts before each, and of all of them.
fn sums_before(alloc: Global, counts: &[u32]) -> Result<Vec<u32>, AllocError>
    requires { sum counts.now < 2 ^ 32 }
    ensures { IfOk result (λ before. AreSums counts.now before.items) }
{
    let mut before = Vec::with_capacity(alloc, counts.len() + 1)?;
    let mut total = 0;
    for count in counts {
        before.push(total)?;
        total += count;
    }
    before.push(total)?;
    Ok(before)
}
