//! The places of rows among those that are alive.
ghost use Rattle.std.specs.Prelude.{◌≡◌, ◌<◌, ◌≤◌, ◌+◌, ◌*◌, ◌/◌, ◌++◌, ◌∷◌, ◌^◌, [], true, length, map, OnOk};
ghost use Rattle.col_places.specs.Bits.{clear_places, clear_rows, set_below};
ghost use Rattle.col_places.specs.Places.{are_places, is_listed, places_of};

use crate::Alive;
use crate::bits::{WORD_BITS, count_before, count_to, is_set};
use col_common::RowId;
use std::alloc::AllocError;

// Appends the places of rows among those that are alive, which are counted from the first one's
// on. Rows that aren't alive have none.
pub(crate) fn push_alive(
    rows: &[RowId],
    alive: &Alive,
    first: RowId,
    places: &mut Vec<RowId>,
) -> Result<(), AllocError>
    requires rows { are_places 0 alive.now.count rows.now ≡ true }
    requires room { first + length alive.now.rows < 2 ^ 32 }
    ensures { OnOk result (places.new.items
        ≡ places.old.items ++ places_of first (is_listed rows.now) alive.now.rows) }
{
    // Where all rows are alive, each is at its own place.
    if alive.len() == alive.num_rows {
        return push_moved(rows, alive.num_rows, first, places);
    }
    push_listed(rows, &alive.dropped, alive.num_rows, first, places)
}

// Appends rows as places, which are counted from the first one's on.
fn push_moved(
    rows: &[RowId],
    num_rows: RowId,
    first: RowId,
    places: &mut Vec<RowId>,
) -> Result<(), AllocError>
    requires rows { are_places 0 num_rows rows.now ≡ true }
    requires room { first + num_rows < 2 ^ 32 }
    ensures { OnOk result (places.new.items
        ≡ places.old.items ++ map (λ row. first + row) rows.now) }
{
    for row in rows {
        places.push(first + *row)?;
    }
    Ok(())
}

// Appends the places of rows, in one walk over them and over the words.
fn push_listed(
    rows: &[RowId],
    dropped: &[u64],
    num_rows: RowId,
    first: RowId,
    places: &mut Vec<RowId>,
) -> Result<(), AllocError>
    requires rows { are_places 0 num_rows rows.now ≡ true }
    requires within { num_rows ≤ 64 * length dropped.now }
    requires room { first + length (clear_rows dropped.now num_rows) < 2 ^ 32 }
    ensures { OnOk result (places.new.items ≡ places.old.items
        ++ places_of first (is_listed rows.now) (clear_rows dropped.now num_rows)) }
{
    let mut word = 0;
    let mut before = 0;
    for row in rows {
        let at = (*row / WORD_BITS) as usize;
        before = count_to(dropped, word, at, before);
        word = at;
        push_place(dropped, *row, before, first, places)?;
    }
    Ok(())
}

// Appends the place of a row that is alive, where so many rows are dropped before its word.
fn push_place(
    dropped: &[u64],
    row: RowId,
    before: RowId,
    first: RowId,
    places: &mut Vec<RowId>,
) -> Result<(), AllocError>
    requires row { row < 64 * length dropped.now }
    requires before { before ≡ set_below dropped.now (64 * (row / 64)) }
    requires room { first + length (clear_rows dropped.now row) < 2 ^ 32 }
    ensures { OnOk result (places.new.items
        ≡ places.old.items ++ clear_places first dropped.now (row ∷ [])) }
{
    if is_set(dropped, row) {
        return Ok(());
    }
    places.push(first + (row - count_before(dropped, row, before)))?;
    Ok(())
}
