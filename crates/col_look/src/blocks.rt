//! Values of lists, read in blocks.
ghost use Rattle.std.specs.Prelude.{◌≡◌, ◌+◌, ◌<◌, ◌≤◌, length, take, drop, IfOk};

use col_values::ColumnValues;
use std::alloc::{AllocError, Global};

// So many values are read at once.
const BLOCK_LEN: usize = 1024;

/// Room for the values that are read at once.
pub(crate) fn new_block<T, V>(alloc: Global, list: &V) -> Result<Vec<T>, AllocError>
where
    T: PartialOrd + Copy,
    V: ColumnValues<T>,
    ensures { IfOk result (λ block. 0 < length block.items) }
{
    vec![in alloc; list.min_value(); BLOCK_LEN]
}

/// Reads the values from a place on to the front of a block, and says how many.
pub(crate) fn read_block<T, V>(list: &V, at: usize, block: &mut [T]) -> usize
where
    T: PartialOrd + Copy,
    V: ColumnValues<T>,
    requires inside { at < length (V.values list.now) }
    requires room { 0 < length block.old }
    ensures some { 0 < result }
    ensures within { at + result ≤ length (V.values list.now) }
    ensures fits { result ≤ length block.old }
    ensures values { take result block.new ≡ take result (drop at (V.values list.now)) }
{
    let len = (list.num_vals() as usize - at).min(block.len());
    list.get_range(at as u64, &mut block[..len]);
    len
}
