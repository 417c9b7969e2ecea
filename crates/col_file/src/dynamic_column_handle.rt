//! Handles of columns.
ghost use Rattle.std.specs.Prelude.{◌≡◌, ◌-◌, Ok};
ghost use Rattle.col_types.specs.Kinds.{kind_of};
ghost use Rattle.col_file.specs.Entries.{entry_of};
ghost use Rattle.col_file.specs.Handles.{handle_of, is_at};

use crate::column_entry::ColumnEntry;
use col_common::ByteCount;
use col_dynamic_open::ColumnType;
use std::alloc::AllocError;
use std::marker::Model;

/// The type of a column, and where its bytes stand in a file. It opens the column in any reader
/// that has an entry of that type and place.
#[derive(Drop)]
pub struct DynamicColumnHandle {
    column_type: ColumnType,
    start: u64,
    end: u64,
    // The place of the entry in the reader that listed it, where it is looked for first.
    place: usize,
}

impl Model for DynamicColumnHandle {
    ghost use Rattle.std.specs.Prelude.{◌≤◌};
    ghost use Rattle.col_types.specs.Kinds.{kind_of};
    ghost use Rattle.col_file.specs.Handles.{Handle};

    ghost Value = { Handle };

    ghost view = { λ h. record {
      column_type = kind_of h.column_type;
      start = h.start;
      «end» = h.«end»;
    } };

    ghost invariant = { λ h. h.start ≤ h.«end» };
}

impl Clone for DynamicColumnHandle {
    fn clone(&self) -> Result<DynamicColumnHandle, AllocError>
        ensures { result ≡ Ok self.now }
    {
        Ok(DynamicColumnHandle {
            column_type: self.column_type,
            start: self.start,
            end: self.end,
            place: self.place,
        })
    }
}

impl DynamicColumnHandle {
    pub(crate) fn new(entry: &ColumnEntry, place: usize) -> DynamicColumnHandle
        ensures { result ≡ handle_of (entry_of entry.now) }
    {
        DynamicColumnHandle {
            column_type: entry.key.column_type,
            start: entry.start,
            end: entry.end,
            place,
        }
    }

    /// Where the column's bytes start and end in the file.
    pub fn byte_range(&self) -> (u64, u64)
        ensures { result ≡ (self.now.start, self.now.«end») }
    {
        (self.start, self.end)
    }

    /// How many bytes the column has.
    pub fn num_bytes(&self) -> ByteCount
        ensures { result ≡ self.now.«end» - self.now.start }
    {
        ByteCount::from(self.end - self.start)
    }

    /// The type of the column.
    pub fn column_type(&self) -> ColumnType
        ensures { kind_of result ≡ self.now.column_type }
    {
        self.column_type
    }

    // Where the entry is looked for first; any place serves.
    pub(crate) fn place(&self) -> usize {
        self.place
    }

    // Whether the entry has the type and the place.
    pub(crate) fn is_of(&self, entry: &ColumnEntry) -> bool
        ensures { result ≡ is_at self.now (entry_of entry.now) }
    {
        self.column_type.to_code() == entry.key.column_type.to_code()
            && self.start == entry.start
            && self.end == entry.end
    }
}
