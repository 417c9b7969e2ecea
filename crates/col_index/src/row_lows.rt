//! Low bits of rows, which tell rows that are close to one another apart.
ghost use Rattle.std.specs.Prelude.{◌≡◌, ◌%◌, ◌^◌, true, IfOk};
ghost use Rattle.col_common.specs.Reading.{only_if};
ghost use Rattle.col_common.specs.Ascending.{is_rising};
ghost use Rattle.col_model.specs.Positions.{rank};
ghost use Rattle.col_numbers.specs.Readers.{list_of};
ghost use Rattle.col_index.specs.RowLows.{AreLows, IsPartOf, KeepsLows};
ghost use Rattle.col_index.specs.Sets.{holds};

use col_common::RowId;
use col_numbers::U64Values;
use col_values::ColumnValues;
use std::alloc::{AllocError, Global};

/// How many low bits of a row are kept.
pub const LOW_BITS: u32 = 16;

/// How many rows these bits tell apart.
const LOW_SPAN: u32 = 1 << LOW_BITS;

// So many places are looked through one by one.
const FEW: u32 = 8;

// The low bits of a row.
#[inline(always)]
fn low_of(row: RowId) -> u16
    ensures { result ≡ row % 2 ^ 16 }
{
    (row % LOW_SPAN) as u16
}

/// The low bits of rows, where they tell the rows of parts of 2 ^ shift rows apart.
pub fn lows_of(alloc: Global, rows: &U64Values, shift: u32) -> Result<Vec<u16>, AllocError>
    ensures { IfOk result (λ lows. KeepsLows (list_of rows.now) shift lows.items) }
{
    if shift > LOW_BITS {
        return Ok(Vec::new(alloc));
    }
    let mut lows = Vec::with_capacity(alloc, rows.num_vals() as usize)?;
    for at in 0..rows.num_vals() {
        lows.push((rows.get_val(at) % u64::from(LOW_SPAN)) as u16)?;
    }
    Ok(lows)
}

/// How many rows before a row have a value, where those before `low` are before it, and those from
/// `high` on aren't.
#[inline(always)]
pub fn rank_by_lows(rows: &U64Values, lows: &[u16], low: u32, high: u32, row: RowId) -> RowId
    requires rising { is_rising (list_of rows.now) ≡ true }
    requires lows { AreLows (list_of rows.now) lows.now }
    requires part { IsPartOf (list_of rows.now) row low high }
    ensures { result ≡ rank (list_of rows.now) row }
{
    let target = low_of(row);
    let mut low = low;
    let mut high = high;
    while high - low > FEW {
        let middle = low + (high - low) / 2;
        if lows[middle as usize] < target {
            low = middle + 1;
        } else {
            high = middle;
        }
    }
    while low < high && lows[low as usize] < target {
        low += 1;
    }
    low
}

/// The rank of a row that has a value.
#[inline(always)]
pub fn rank_by_lows_if_exists(
    rows: &U64Values,
    lows: &[u16],
    low: u32,
    high: u32,
    row: RowId,
) -> Option<RowId>
    requires rising { is_rising (list_of rows.now) ≡ true }
    requires lows { AreLows (list_of rows.now) lows.now }
    requires part { IsPartOf (list_of rows.now) row low high }
    ensures { result ≡ only_if (holds (list_of rows.now) row) (rank (list_of rows.now) row) }
{
    let rank = rank_by_lows(rows, lows, low, high, row);
    if rank >= high {
        return None;
    }
    if lows[rank as usize] == low_of(row) {
        return Some(rank);
    }
    None
}
