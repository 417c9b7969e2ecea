//! The rows of a table that are alive.
ghost use Rattle.std.specs.Prelude.{◌≡◌, ◌<◌, ◌≤◌, ◌+◌, ◌*◌, ◌^◌, length, true, IfOk};
ghost use Rattle.std.specs.List.{range_with_len};
ghost use Rattle.col_places.specs.Bits as bits;
ghost use Rattle.col_places.specs.Places.{Ascends, are_places, rows_without};

use crate::bits::{WORD_BITS, is_set};
use crate::dropping::drop_listed;
use col_common::RowId;
use std::alloc::{AllocError, Global};
use std::marker::Model;

/// The rows of a table that are alive. It keeps a bit for each row, which is set where the row is
/// dropped. Contracts see how many rows the table has, and those alive, ascending.
#[derive(Drop)]
pub struct Alive {
    pub(crate) dropped: Vec<u64>,
    pub(crate) num_rows: RowId,
    num_alive: RowId,
}

impl Model for Alive {
    ghost use Rattle.col_places.specs.Places.{AliveRows};
    ghost use Rattle.col_places.specs.Bits.{CountsClear, clear_rows};

    ghost Value = { AliveRows };

    ghost view = { λ a.
        record { count = a.num_rows; rows = clear_rows a.dropped.items a.num_rows } };

    ghost invariant = { λ a. CountsClear a.dropped.items a.num_rows a.num_alive };
}

impl Alive {
    /// All rows of a table.
    pub fn all(alloc: Global, num_rows: RowId) -> Result<Alive, AllocError>
        ensures { IfOk result (λ alive. alive
            ≡ record { count = num_rows; rows = range_with_len 0 num_rows }) }
    {
        let count = num_rows.div_ceil(WORD_BITS);
        let dropped = vec![in alloc; 0; count as usize]?;
        Ok(Alive {
            dropped,
            num_rows,
            num_alive: num_rows,
        })
    }

    /// How many rows are alive.
    pub fn len(&self) -> RowId
        ensures { result ≡ length self.now.rows }
    {
        self.num_alive
    }

    /// That they are rows of the table, and ascend.
    pub fn rise(&self)
        ensures { are_places 0 self.now.count self.now.rows ≡ true }
    {
        let _ = &self.dropped;
    }

    /// These rows, as a list.
    pub fn to_rows(&self, alloc: Global) -> Result<Vec<RowId>, AllocError>
        ensures { IfOk result (λ rows. rows.items ≡ self.now.rows) }
    {
        clear_rows(alloc, &self.dropped, self.num_rows, self.num_alive)
    }

    /// Drops the rows at places, which are counted from the first one's on. It takes no memory.
    pub fn drop_places(&mut self, ids: &[RowId], first: RowId)
        requires room { first + length self.old.rows < 2 ^ 32 }
        requires places { Ascends ids.now }
        ensures { self.new ≡ record self.old { rows = rows_without ids.now first self.old.rows } }
    {
        self.num_alive = drop_listed(&mut self.dropped, self.num_rows, ids, first);
    }
}

// The rows whose bit isn't set, of which there are about so many.
fn clear_rows(
    alloc: Global,
    words: &[u64],
    num_rows: RowId,
    count: RowId,
) -> Result<Vec<RowId>, AllocError>
    requires { num_rows ≤ 64 * length words.now }
    ensures { IfOk result (λ rows. rows.items ≡ bits.clear_rows words.now num_rows) }
{
    let mut rows = Vec::with_capacity(alloc, count as usize)?;
    for row in 0..num_rows {
        if !is_set(words, row) {
            rows.push(row)?;
        }
    }
    Ok(rows)
}
