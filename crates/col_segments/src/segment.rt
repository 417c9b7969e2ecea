//! A file in memory, and the rows of it that are alive.
ghost use Rattle.std.specs.Prelude.{◌≡◌, ◌<◌, ◌+◌, ◌^◌, length};
ghost use Rattle.col_common.specs.Reading.{IsBytes};
ghost use Rattle.col_model.specs.Sound.{IsSound};
ghost use Rattle.col_segments.specs.Compaction.{HasItsRows};
ghost use Rattle.col_segments.specs.Segments.{Ascends, rows_without};

use bytes::Bytes;
use col_common::RowId;
use col_places::Alive;
use std::marker::Model;

/// A file that stands for a table, and the rows of it that are alive, ascending. Contracts see the
/// table.
#[derive(Drop)]
pub struct Segment {
    pub(crate) file: Bytes,
    pub(crate) alive: Alive,
}

impl Model for Segment {
    ghost use Rattle.col_segments.specs.Segments.{HeldTable};
    ghost use Rattle.col_segments.specs.Files.{table_in, IsWhole};

    ghost Value = { HeldTable };

    ghost view = { λ s. record { table = table_in s.file; alive = s.alive.rows } };

    ghost invariant = { λ s. IsWhole s.file s.alive };
}

impl Segment {
    /// The rows that are alive.
    pub fn alive(&self) -> &Alive
        ensures rows { result.now.rows ≡ self.now.alive }
        ensures count { result.now.count ≡ self.now.table.row_count }
    {
        &self.alive
    }

    /// How many rows are alive.
    pub fn num_alive(&self) -> RowId
        ensures { result ≡ length self.now.alive }
    {
        self.alive.len()
    }

    /// That the rows that are alive are rows of the table.
    pub fn rows_are_there(&self)
        ensures { HasItsRows self.now }
    {
        self.alive.rise();
    }

    /// That the table is sound.
    pub fn table_is_sound(&self)
        ensures { IsSound self.now.table }
    {
        are_bytes(&self.file);
    }

    /// Drops the rows at places, which are counted from the first one's on.
    pub fn drop_places(&mut self, ids: &[RowId], first: RowId)
        requires room { first + length self.old.alive < 2 ^ 32 }
        requires places { Ascends ids.now }
        ensures { self.new ≡ record self.old { alive = rows_without ids.now first self.old.alive } }
    {
        self.alive.drop_places(ids, first);
    }
}

// That each number of a slice of bytes is a byte.
fn are_bytes(bytes: &[u8])
    ensures { IsBytes bytes.now }
{
    let _ = bytes;
}
