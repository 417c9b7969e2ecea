//! Windows of positions that follow one another, in which the start offsets at or before each are
//! looked up in a table.
ghost use Rattle.std.specs.Prelude.{◌≡◌, ◌≤◌, ◌<◌, ◌+◌, ◌^◌, ℕ, true, length, take, drop, sum};
ghost use Rattle.std.specs.Prelude.{slice_index, if◌then◌else◌};
ghost use Rattle.col_common.specs.Ascending.{is_rising};
ghost use Rattle.col_model.specs.Positions.{rank};
ghost use Rattle.col_numbers.specs.Readers.{list_of};
ghost use Rattle.col_index.specs.Sets.{holds};
ghost use Rattle.col_index.specs.Windows.{IsWindow};

use crate::search::rank_in;
use col_common::RowId;
use col_numbers::U64Values;
use col_values::ColumnValues;

/// The places of a table: one more than a window has positions.
pub const TABLE_LEN: usize = 1024;

/// How many start offsets are read at once.
const BLOCK_LEN: u32 = 512;

/// So many positions from one on.
#[derive(Clone, Copy)]
pub struct Window {
    pub position: RowId,
    pub len: RowId,
}

/// The window of a position: the one that is there, or one from the position on.
#[inline(always)]
pub fn window_at(starts: &U64Values, position: RowId, window: Window, table: &mut [RowId]) -> Window
    requires rising { is_rising (list_of starts.now) ≡ true }
    requires inside { rank (list_of starts.now) (position + 1) < length (list_of starts.now) }
    requires room { TABLE_LEN ≤ length table.old }
    requires window { IsWindow (list_of starts.now) window table.old }
    ensures window { IsWindow (list_of starts.now) result table.new }
    ensures from { result.position ≤ position }
    ensures upto { position < result.position + result.len }
{
    if position < window.position {
        return fill(starts, position, table);
    }
    if position - window.position >= window.len {
        return fill(starts, position, table);
    }
    window
}

// The window from a position on.
#[inline(never)]
fn fill(starts: &U64Values, position: RowId, table: &mut [RowId]) -> Window
    requires rising { is_rising (list_of starts.now) ≡ true }
    requires inside { rank (list_of starts.now) (position + 1) < length (list_of starts.now) }
    requires room { TABLE_LEN ≤ length table.old }
    ensures window { IsWindow (list_of starts.now) result table.new }
    ensures position { result.position ≡ position }
    ensures some { 0 < result.len }
{
    let first = rank_in(starts, position as u64 + 1);
    let mut block = [0; BLOCK_LEN as usize];
    let len = (starts.num_vals() - first).min(BLOCK_LEN);
    let block = &mut block[..len as usize];
    starts.get_range(first as u64, block);
    fill_by(starts, block, first, position, table)
}

// The same by a block of the start offsets behind the position.
fn fill_by(
    starts: &U64Values,
    block: &[u64],
    first: RowId,
    position: RowId,
    table: &mut [RowId],
) -> Window
    requires rising { is_rising (list_of starts.now) ≡ true }
    requires first { first ≡ rank (list_of starts.now) (position + 1) }
    requires block { block.now ≡ take (length block.now) (drop first (list_of starts.now)) }
    requires within { first + length block.now ≤ length (list_of starts.now) }
    requires some { 0 < length block.now }
    requires room { TABLE_LEN ≤ length table.old }
    ensures window { IsWindow (list_of starts.now) result table.new }
    ensures position { result.position ≡ position }
    ensures some { 0 < result.len }
{
    // That there are fewer offsets than 2 ^ 32 is known of their count.
    let _count = starts.num_vals();
    let behind = position as u64 + 1;
    let mut marks = [0; TABLE_LEN];
    mark(block, behind, &mut marks);
    let reach = block[block.len() - 1] - position as u64;
    let len = reach.min(TABLE_LEN as u64 - 1) as RowId;
    sum_up(&marks, first, len, table);
    Window { position, len }
}

// Marks start offsets at their distances from a number that none is below, and those that are
// further off at the last place.
fn mark(block: &[u64], behind: u64, marks: &mut [u32])
    requires some { 0 < length marks.old }
    requires clear { (i : ℕ) → i < length marks.old → slice_index marks.old i ≡ 0 }
    requires behind { (k : ℕ) → k < length block.now → behind ≤ slice_index block.now k }
    ensures { (i : ℕ) → i + 1 < length marks.new → slice_index marks.new i
        ≡ if holds block.now (behind + i) then 1 else 0 }
{
    let last = marks.len() - 1;
    for at in 0..block.len() {
        let place = (block[at] - behind).min(last as u64) as usize;
        marks[place] = 1;
    }
}

// Puts into a table what a first number and the marks before each of so many places come to.
fn sum_up(marks: &[u32], first: u32, len: u32, table: &mut [u32])
    requires marks { len ≤ length marks.now }
    requires table { len ≤ length table.old }
    requires fits { (i : ℕ) → i ≤ len → first + sum (take i marks.now) < 2 ^ 32 }
    ensures { (i : ℕ) → i < len → slice_index table.new i ≡ first + sum (take i marks.now) }
{
    let mut run = first;
    for at in 0..len as usize {
        table[at] = run;
        run += marks[at];
    }
}
