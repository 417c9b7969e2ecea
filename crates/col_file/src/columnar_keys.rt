//! What the end of a file says, and its columns by their names.
ghost use Rattle.std.specs.Prelude.{◌≡◌, ◌<◌, ◌≤◌, ◌^◌, Some, true, length, map, option_and_then, option_map, slice_get, slice_range, string_bytes, bytes_eq, nat_eq, IfOk, is_some};
ghost use Rattle.std.specs.List.{list_any, starts_with};
ghost use Rattle.col_dynamic_open.specs.Versions.{version_number};
ghost use Rattle.col_keys.specs.KeyTables.{all_keyed, keys_seen};
ghost use Rattle.col_model.specs.Keys.{entries_from, total_length, are_keys};
ghost use Rattle.col_file.specs.Entries.{entry_of};
ghost use Rattle.col_model.specs.ColumnType.{same_type};
ghost use Rattle.col_types.specs.Kinds.{kind_of};
ghost use Rattle.col_file.specs.Handles.{handle_of, listed, is_at, is_entry, entry_typed};
ghost use Rattle.col_file.specs.Runs.{IsRun};

use crate::column_entry::ColumnEntry;
use crate::dynamic_column_handle::DynamicColumnHandle;
use crate::entries::entries_of;
use col_common::RowId;
use col_dynamic_open::{ColumnType, Version};
use col_keys::KeyedLength;
use std::alloc::{AllocError, Global};
use std::marker::Model;
use std::ops::Range;

// What the end of a file says.
#[derive(Drop)]
pub(crate) struct ColumnarKeys {
    num_docs: RowId,
    version: Version,
    columns: Vec<ColumnEntry>,
}

impl Model for ColumnarKeys {
    ghost use Rattle.std.specs.Prelude.{◌≡◌, true, map};
    ghost use Rattle.col_dynamic_open.specs.Versions.{version_number};
    ghost use Rattle.col_model.specs.Keys.{FileKeys, are_keys};
    ghost use Rattle.col_file.specs.Entries.{entries_seen};

    ghost Value = { FileKeys };

    ghost view = { λ k. record {
      row_count = k.num_docs;
      version = version_number k.version;
      entries = entries_seen k.columns.items;
    } };

    ghost invariant = { λ k. are_keys (map (λ e. e.key) (entries_seen k.columns.items)) ≡ true };
}

impl ColumnarKeys {
    // The columns follow one another from the file's front on.
    pub(crate) fn new(
        alloc: Global,
        num_docs: RowId,
        version: Version,
        columns: Vec<KeyedLength>,
    ) -> Result<ColumnarKeys, AllocError>
        requires fits { total_length (all_keyed columns.items) < 2 ^ 64 }
        requires keys { are_keys (keys_seen columns.items) ≡ true }
        ensures { IfOk result (λ k. k ≡ record {
          row_count = num_docs;
          version = version_number version;
          entries = entries_from 0 (all_keyed columns.items);
        }) }
    {
        let columns = entries_of(alloc, columns)?;
        Ok(ColumnarKeys {
            num_docs,
            version,
            columns,
        })
    }

    pub(crate) fn num_docs(&self) -> RowId
        ensures { result ≡ self.now.row_count }
    {
        self.num_docs
    }

    pub(crate) fn version(&self) -> Version
        ensures { version_number result ≡ self.now.version }
    {
        self.version
    }

    pub(crate) fn num_columns(&self) -> usize
        ensures { result ≡ length self.now.entries }
    {
        self.columns.len()
    }

    pub(crate) fn name_at(&self, at: usize) -> &str
        requires { at < length self.now.entries }
        ensures { option_map (λ e. e.key.name) (slice_get self.now.entries at) ≡ Some result.now }
    {
        let entry = &self.columns[at];
        entry.key.name.as_str()
    }

    pub(crate) fn handle_at(&self, at: usize) -> DynamicColumnHandle
        requires { at < length self.now.entries }
        ensures { option_map handle_of (slice_get self.now.entries at) ≡ Some result }
    {
        let entry = &self.columns[at];
        DynamicColumnHandle::new(entry, at)
    }

    // Whether some entry has the type and the place of the handle. It is tried first where the
    // handle says that it stands.
    pub(crate) fn has_entry(&self, handle: &DynamicColumnHandle) -> bool
        ensures { result ≡ is_entry self.now handle.now }
    {
        let columns = self.columns.as_slice();
        if let Some(entry) = columns.get(handle.place())
            && handle.is_of(entry)
        {
            return true;
        }
        has_place(columns, handle)
    }

    // The places of the columns of a name, by halves.
    pub(crate) fn named(&self, name: &str) -> Range<usize>
        ensures { IsRun (λ e. bytes_eq e.key.name name.now) self.now.entries
            result.start result.end }
    {
        let columns = self.columns.as_slice();
        let start = columns.partition_point(|entry| entry.compare_name(name).is_lt());
        let end = columns.partition_point(|entry| entry.compare_name(name).is_le());
        start..end
    }

    // The place of the column of a name and a type, by halves.
    pub(crate) fn place_of(&self, name: &str, column_type: ColumnType) -> Option<usize>
        ensures place { option_and_then (slice_get self.now.entries) result
            ≡ entry_typed name.now (kind_of column_type) self.now.entries }
        ensures some { is_some result
            ≡ is_some (entry_typed name.now (kind_of column_type) self.now.entries) }
    {
        let places = self.named(name);
        for at in places.start..places.end {
            if self.is_of(at, column_type) {
                return Some(at);
            }
        }
        None
    }

    // Whether the column at a place is of a type.
    fn is_of(&self, at: usize, column_type: ColumnType) -> bool
        requires { at < length self.now.entries }
        ensures { option_map (λ e. same_type e.key.column_type (kind_of column_type))
            (slice_get self.now.entries at) ≡ Some result }
    {
        let entry = &self.columns[at];
        entry.key.column_type.to_code() == column_type.to_code()
    }

    // The places of the columns whose names begin so, by halves.
    pub(crate) fn beginning(&self, front: &[u8]) -> Range<usize>
        ensures { IsRun (λ e. starts_with nat_eq e.key.name front.now) self.now.entries
            result.start result.end }
    {
        let columns = self.columns.as_slice();
        let start = columns.partition_point(|entry| entry.compare_front(front).is_lt());
        let end = columns.partition_point(|entry| entry.compare_front(front).is_le());
        start..end
    }

    // The handles of the columns from one place up to another.
    pub(crate) fn handles(
        &self,
        alloc: Global,
        start: usize,
        end: usize,
    ) -> Result<Vec<DynamicColumnHandle>, AllocError>
        requires ordered { start ≤ «end» }
        requires within { «end» ≤ length self.now.entries }
        ensures { IfOk result (λ found. found.items
            ≡ map handle_of (slice_range self.now.entries start «end»)) }
    {
        let mut found = Vec::with_capacity(alloc, end - start)?;
        for at in start..end {
            found.push(self.handle_at(at))?;
        }
        Ok(found)
    }

    // The names and the handles of all columns.
    pub(crate) fn list(
        &self,
        alloc: Global,
    ) -> Result<Vec<(String, DynamicColumnHandle)>, AllocError>
        ensures { IfOk result (λ found. map (λ p. (string_bytes p.0, p.1)) found.items
            ≡ map listed self.now.entries) }
    {
        let mut found = Vec::with_capacity(alloc, self.num_columns())?;
        for at in 0..self.num_columns() {
            let name = String::from_str(alloc, self.name_at(at))?;
            found.push((name, self.handle_at(at)))?;
        }
        Ok(found)
    }
}

// Whether some entry has the type and the place of the handle.
fn has_place(columns: &[ColumnEntry], handle: &DynamicColumnHandle) -> bool
    ensures { result ≡ list_any (λ e. is_at handle.now (entry_of e)) columns.now }
{
    columns.iter().any(|entry| handle.is_of(entry))
}
