//! Rows that are dropped by their places.
ghost use Rattle.std.specs.Prelude.{◌≡◌, ◌≤◌, ◌<◌, ◌+◌, ◌*◌, ◌^◌, length};
ghost use Rattle.col_places.specs.Bits.{clear_rows};
ghost use Rattle.col_places.specs.Places as model;
ghost use Rattle.col_places.specs.Places.{Ascends, rows_without};

use crate::bits::{is_set, set_bit};
use col_common::RowId;

// Sets the bits of the rows at the places named, which are counted among those whose bit isn't set,
// from the first one's on, and gives how many of these are left.
pub(crate) fn drop_listed(words: &mut [u64], num_rows: RowId, ids: &[RowId], first: RowId) -> RowId
    requires within { num_rows ≤ 64 * length words.old }
    requires room { first + length (clear_rows words.old num_rows) < 2 ^ 32 }
    requires places { Ascends ids.now }
    ensures rows { clear_rows words.new num_rows
        ≡ rows_without ids.now first (clear_rows words.old num_rows) }
    ensures left { result ≡ length (clear_rows words.new num_rows) }
{
    let mut place = first;
    let mut left = 0;
    for row in 0..num_rows {
        if !is_set(words, row) {
            if is_listed(ids, place) {
                set_bit(words, row);
            } else {
                left += 1;
            }
            place += 1;
        }
    }
    left
}

// Whether a place is among those named.
fn is_listed(ids: &[RowId], place: RowId) -> bool
    requires { Ascends ids.now }
    ensures { result ≡ model.is_listed ids.now place }
{
    ids.binary_search(&place).is_ok()
}
