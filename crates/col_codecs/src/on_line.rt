//! Values on a line: their bounds, and which of them lie in a range, with no walk where it is known
//! that all or none do.
ghost use Rattle.std.specs.Prelude.{◌≡◌, ◌<◌, ◌≤◌, ◌+◌, ◌-◌, ◌^◌, ◌++◌, map, OnOk};
ghost use Rattle.std.specs.List.{range_with_len};
ghost use Rattle.col_common.specs.Replacing.{Replaces};
ghost use Rattle.col_model.specs.Line.{line};
ghost use Rattle.col_codecs.specs.BlockBounds.{AreBounds};
ghost use Rattle.col_codecs.specs.BoundedItems.{ids_by};
ghost use Rattle.col_codecs.specs.OnLine.{on_line, values_on, shift_of, lifted};

use crate::block_bounds::{BOUNDED_LEN, BOUNDED_SIZE, Bounds, push_all};
use crate::bounded_items::BoundedItems;
use crate::line::Line;
use crate::residues::least_residue;
use col_common::ColumnarError;
use std::alloc::AllocError;
use std::ops::Range;

// Half of the numbers of 32 bits, below which one isn't negative.
const HALF: u64 = 1 << 31;

/// The upper halves of products are below this.
pub const HALVES: u64 = 1 << 32;

/// Products are kept modulo this.
pub const PRODUCTS: u128 = 1 << 64;

impl BoundedItems for Line {
    ghost use Rattle.std.specs.Prelude.{◌^◌};
    ghost use Rattle.col_codecs.specs.OnLine.{on_line};

    ghost item = { on_line };

    ghost count = { λ _. 2 ^ 32 };

    ghost IsWhole = { λ _. Unit {0} };

    fn read(&self, start: u32, output: &mut [u64]) {
        for at in 0..output.len() {
            output[at] = self.eval(start + at as u32);
        }
    }
}

/// How far upper halves of products are moved, so that values rise with them.
pub fn shift_of(intercept: u64) -> u64
    ensures { result ≡ shift_of intercept }
{
    if HALF <= intercept && intercept <= u64::MAX - (HALF - 1) {
        return HALF;
    }
    intercept % HALVES
}

// The value where the moved half is this.
fn lifted(intercept: u64, half: u64) -> u64
    requires { half < 2 ^ 32 }
    ensures { result ≡ lifted intercept half }
{
    let rise = (half + HALVES - shift_of(intercept)) % HALVES;
    let steep = Line {
        slope: HALVES,
        intercept,
    };
    steep.eval(rise as u32)
}

/// The bounds of a line's values from a position on.
pub fn bounds_on(line: Line, start: u32, count: u32) -> Bounds
    requires some { 0 < count }
    requires fits { start + count ≤ 2 ^ 32 }
    ensures { AreBounds result (values_on line start count) }
{
    bounds_by(line.slope, line.intercept, start, count)
}

// The same by slope and intercept.
fn bounds_by(slope: u64, intercept: u64, start: u32, count: u32) -> Bounds
    requires some { 0 < count }
    requires fits { start + count ≤ 2 ^ 32 }
    ensures { AreBounds result (map (line slope intercept) (range_with_len start count)) }
{
    let moved = shift_of(intercept) << 32;
    let offset = slope.wrapping_mul(u64::from(start)).wrapping_add(moved);
    let least = least_residue(count, PRODUCTS, u128::from(slope), u128::from(offset));
    let down = u128::from(0u64.wrapping_sub(slope));
    let below = least_residue(count, PRODUCTS, down, u128::from(u64::MAX - offset));
    Bounds {
        least: lifted(intercept, least as u64 / HALVES),
        greatest: lifted(intercept, (u64::MAX - below as u64) / HALVES),
    }
}

/// Puts there which of the ids have a value from `low` to `high` on a line.
pub fn find_on_line(
    line: Line,
    low: u64,
    high: u64,
    ids: Range<u32>,
    hits: &mut Vec<u32>,
) -> Result<(), ColumnarError>
    ensures { Replaces result hits.new.items
        (ids_by (on_line line) low high ids.start (ids.end - ids.start)) }
{
    hits.clear();
    if ids.start >= ids.end {
        return Ok(());
    }
    if let Err(_wanting) = push_on_line(line, low, high, ids, hits) {
        hits.clear();
        return Err(ColumnarError::OutOfMemory);
    }
    Ok(())
}

// Appends those: none where all values lie outside the range, all where all lie inside, and else
// those of each half.
fn push_on_line(
    line: Line,
    low: u64,
    high: u64,
    ids: Range<u32>,
    hits: &mut Vec<u32>,
) -> Result<(), AllocError>
    requires { ids.start < ids.end }
    ensures { OnOk result (hits.new.items ≡ hits.old.items
        ++ ids_by (on_line line) low high ids.start (ids.end - ids.start)) }
{
    let count = ids.end - ids.start;
    let Bounds { least, greatest } = bounds_on(line, ids.start, count);
    if greatest < low || high < least {
        return Ok(());
    }
    if low <= least && greatest <= high {
        return push_all(ids, hits);
    }
    if count <= BOUNDED_LEN {
        return push_walked(line, low, high, ids, hits);
    }
    let middle = ids.start + count / 2;
    push_on_line(line, low, high, ids.start..middle, hits)?;
    push_on_line(line, low, high, middle..ids.end, hits)
}

// Appends those of a few ids, each of which is asked.
fn push_walked(
    line: Line,
    low: u64,
    high: u64,
    ids: Range<u32>,
    hits: &mut Vec<u32>,
) -> Result<(), AllocError>
    requires order { ids.start ≤ ids.end }
    requires short { ids.end - ids.start ≤ 1024 }
    ensures { OnOk result (hits.new.items ≡ hits.old.items
        ++ ids_by (on_line line) low high ids.start (ids.end - ids.start)) }
{
    let mut block = [0; BOUNDED_SIZE];
    line.push_ids(low, high, ids, &mut block, hits)
}
