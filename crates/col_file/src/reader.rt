//! Open files.
ghost use Rattle.std.specs.Prelude.{◌≡◌, ◌<◌, false, length, map, option_and_then, option_map, is_some, slice_get, string_bytes, Some, Err, IfOk, IfErr};
ghost use Rattle.std.specs.List.{AllByRecursion};
ghost use Rattle.col_dynamic_open.specs.Versions.{version_number};
ghost use Rattle.col_file.specs.Columns.{bytes_at};
ghost use Rattle.col_file.specs.Files.{AnswersForHandle};
ghost use Rattle.col_file.specs.Handles.{handle_of, listed, is_entry, entry_typed, entries_named, entries_below};
ghost use Rattle.col_types.specs.Kinds.{kind_of};
ghost use Rattle.col_file.specs.Readers.{IsRead, Reads, Opens};

use crate::column_iter::ColumnIter;
use crate::columnar_keys::ColumnarKeys;
use crate::dynamic_column_handle::DynamicColumnHandle;
use crate::path::front_of_path;
use crate::reading::{read_keys, read_part};
use bytes::Bytes;
use col_common::{ColumnarError, FileHandle, RowId};
use col_dynamic_open::{ColumnType, Version};
use std::alloc::Global;
use std::fmt;
use std::marker::Model;

/// A file whose columns can be listed, found by name and opened. Contracts see the file, and what
/// its end says.
#[derive(Drop)]
pub struct ColumnarReader<F: FileHandle> {
    file: F,
    keys: ColumnarKeys,
}

impl<F: FileHandle> Model for ColumnarReader<F> {
    ghost use Rattle.col_file.specs.Readers.{SeenReader, IsRead};

    ghost Value = { SeenReader };

    ghost view = { λ r. record { file = F.seen r.file; keys = r.keys } };

    ghost invariant = { λ r. IsRead (record { file = F.seen r.file; keys = r.keys }) };
}

impl<F: FileHandle> ColumnarReader<F> {
    /// Opens a file, in at most two reads of it. It answers InvalidData exactly where the file
    /// doesn't end as the format says; a refusal hands the file back. A table that the file stands
    /// for is sound, by the law `decoded_tables_are_sound`.
    pub fn open(alloc: Global, file: F) -> Result<ColumnarReader<F>, (F, ColumnarError)>
        ensures { Opens F.seen (F.seen file) result }
    {
        let mut file = file;
        match read_keys(alloc, &mut file) {
            Ok(keys) => Ok(ColumnarReader { file, keys }),
            Err(error) => Err((file, error)),
        }
    }

    /// The file.
    pub fn into_file(self) -> F
        ensures { F.seen result ≡ self.file }
    {
        let ColumnarReader { file, keys } = self;
        drop(keys);
        file
    }

    /// That each entry has its bytes in the file, and the file ends as the entries say.
    pub fn file_is_whole(&self)
        ensures { IsRead self.now }
    {
        // That a reader's invariant holds is known where a field of it is read.
        let _ = &self.file;
    }

    /// How many documents there are.
    pub fn num_docs(&self) -> RowId
        ensures { result ≡ self.now.keys.row_count }
    {
        self.keys.num_docs()
    }

    /// How many columns there are.
    pub fn num_columns(&self) -> usize
        ensures { result ≡ length self.now.keys.entries }
    {
        self.keys.num_columns()
    }

    /// The columns, by name, then by the type's code: each name with its handle.
    pub fn iter_columns(&self) -> ColumnIter<'_>
        ensures { result ≡ map listed self.now.keys.entries }
    {
        ColumnIter::new(&self.keys)
    }

    /// The same as a list.
    pub fn list_columns(
        &self,
        alloc: Global,
    ) -> Result<Vec<(String, DynamicColumnHandle)>, ColumnarError>
        ensures ok { IfOk result (λ found. map (λ p. (string_bytes p.0, p.1)) found.items
            ≡ map listed self.now.keys.entries) }
        ensures err { IfErr result (λ e. e ≡ ColumnarError.OutOfMemory) }
    {
        Ok(self.keys.list(alloc)?)
    }

    /// The place, among all columns, of the column of a name and a type. It is found by halves.
    pub fn column_place(&self, column_name: &str, column_type: ColumnType) -> Option<usize>
        ensures place { option_and_then (slice_get self.now.keys.entries) result
            ≡ entry_typed column_name.now (kind_of column_type) self.now.keys.entries }
        ensures some { is_some result ≡ is_some
            (entry_typed column_name.now (kind_of column_type) self.now.keys.entries) }
    {
        self.keys.place_of(column_name, column_type)
    }

    /// The columns of a name, by the type's code. There may be several, of different types.
    pub fn read_columns(
        &self,
        alloc: Global,
        column_name: &str,
    ) -> Result<Vec<DynamicColumnHandle>, ColumnarError>
        ensures ok { IfOk result (λ found. found.items
            ≡ map handle_of (entries_named column_name.now self.now.keys.entries)) }
        ensures err { IfErr result (λ e. e ≡ ColumnarError.OutOfMemory) }
    {
        let places = self.keys.named(column_name);
        Ok(self.keys.handles(alloc, places.start, places.end)?)
    }

    /// The columns whose names have the path and a separator in front, by name, then by the type's
    /// code.
    pub fn read_subpath_columns(
        &self,
        alloc: Global,
        root_path: &str,
    ) -> Result<Vec<DynamicColumnHandle>, ColumnarError>
        ensures ok { IfOk result (λ found. found.items
            ≡ map handle_of (entries_below root_path.now self.now.keys.entries)) }
        ensures err { IfErr result (λ e. e ≡ ColumnarError.OutOfMemory) }
    {
        let front = front_of_path(alloc, root_path)?;
        let places = self.keys.beginning(front.as_slice());
        Ok(self.keys.handles(alloc, places.start, places.end)?)
    }

    /// The version of the file's bytes.
    pub fn format_version(&self) -> Version
        ensures { version_number result ≡ self.now.keys.version }
    {
        self.keys.version()
    }

    // The handle of the entry at a place.
    pub(crate) fn handle_at(&self, place: usize) -> DynamicColumnHandle
        requires { place < length self.now.keys.entries }
        ensures { option_map handle_of (slice_get self.now.keys.entries place) ≡ Some result }
    {
        self.keys.handle_at(place)
    }

    // Reads the bytes of a handle's column, where the handle is that of an entry.
    pub(crate) fn read_column(
        &mut self,
        alloc: Global,
        handle: &DynamicColumnHandle,
    ) -> Result<Bytes, ColumnarError>
        ensures no_entry { is_entry self.old.keys handle.now ≡ false
            → result ≡ Err ColumnarError.InvalidData }
        ensures answer { AnswersForHandle (λ expected part. part ≡ expected)
            self.old.file self.new.file result (bytes_at self.old.keys handle.now) }
        ensures kept { Reads 1 self.old self.new }
    {
        if !self.keys.has_entry(handle) {
            return Err(ColumnarError::InvalidData);
        }
        let (start, end) = handle.byte_range();
        read_part(alloc, &mut self.file, start, end)
    }
}

/// The bytes of a handle's column, whatever they stand for, by at most one read. It answers
/// InvalidData where the handle is no entry of the reader, and, where the file tells what it holds,
/// nowhere else.
pub fn read_column<F: FileHandle>(
    alloc: Global,
    reader: &mut ColumnarReader<F>,
    handle: &DynamicColumnHandle,
) -> Result<Bytes, ColumnarError>
    ensures no_entry { is_entry reader.old.keys handle.now ≡ false
        → result ≡ Err ColumnarError.InvalidData }
    ensures answer { AnswersForHandle (λ expected part. part ≡ expected)
        reader.old.file reader.new.file result (bytes_at reader.old.keys handle.now) }
    ensures kept { Reads 1 reader.old reader.new }
{
    reader.read_column(alloc, handle)
}

impl<F: FileHandle> fmt::Debug for ColumnarReader<F> {
    fn fmt<W: fmt::Write>(&self, f: &mut fmt::Formatter<W>) -> fmt::Result {
        f.debug_struct("Columnar")
            .field("num_rows", &self.num_docs())
            .field("num_cols", &self.num_columns())
            .finish()
    }
}

/// Each file ends as its reader says.
pub fn files_are_read<F: FileHandle>(columnar_readers: &[ColumnarReader<F>])
    ensures { AllByRecursion IsRead columnar_readers.now }
{
    for reader in columnar_readers {
        reader.file_is_whole();
    }
}
