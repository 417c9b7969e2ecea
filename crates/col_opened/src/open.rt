//! Opens columns of a file.
ghost use Rattle.std.specs.Prelude.{◌≡◌, true, length, map, count_by, IfOk};
ghost use Rattle.std.specs.List.{AllByRecursion};
ghost use Rattle.col_file.specs.Files.{AnswersForHandle};
ghost use Rattle.col_file.specs.Handles.{is_entry};
ghost use Rattle.col_file.specs.Readers.{Reads};
ghost use Rattle.col_model.specs.File.{for_each, table_of};
ghost use Rattle.col_opened.specs.Chosen.{table_where, whole_entry};
ghost use Rattle.col_opened.specs.Opened.{column_of, entry_listed, AreOpen, HasRows};

use crate::open_columns::{OpenColumn, OpenColumns};
use crate::wanted::{places_of, wanted_entries};
use col_common::{ColumnarError, FileHandle};
use col_file::{ColumnarReader, DynamicColumnHandle};
use std::alloc::Global;

/// Opens all columns of a file, each by one read. It answers InvalidData where the bytes of some
/// column are none of its type.
pub fn open_all<F: FileHandle>(
    alloc: Global,
    reader: &mut ColumnarReader<F>,
) -> Result<OpenColumns, ColumnarError>
    ensures answer { AnswersForHandle (λ t columns. AreOpen reader.old.keys t columns)
        reader.old.file reader.new.file result table_of }
    ensures reads { Reads (length reader.old.keys.entries) reader.old reader.new }
{
    reader.file_is_whole();
    let wanted = vec![in alloc; true; reader.num_columns()]?;
    open_where(alloc, reader, &wanted)
}

/// Opens those columns of a file whose flag is set, each by one read. There is a flag for each
/// entry of the file. It answers InvalidData where the bytes of such a column are none of its type.
pub fn open_where<F: FileHandle>(
    alloc: Global,
    reader: &mut ColumnarReader<F>,
    wanted: &[bool],
) -> Result<OpenColumns, ColumnarError>
    requires { length wanted.now ≡ length reader.old.keys.entries }
    ensures answer { AnswersForHandle (λ t columns. AreOpen reader.old.keys t columns)
        reader.old.file reader.new.file result (table_where wanted.now) }
    ensures reads { Reads (count_by (λ w. w) wanted.now) reader.old reader.new }
{
    reader.file_is_whole();
    let places = places_of(alloc, wanted)?;
    let listed = wanted_entries(alloc, reader, wanted)?;
    let columns = open_listed(alloc, reader, listed)?;
    Ok(OpenColumns { places, columns })
}

// Opens the columns of entries, in order, each by one read.
fn open_listed<F: FileHandle>(
    alloc: Global,
    reader: &mut ColumnarReader<F>,
    listed: Vec<(String, DynamicColumnHandle)>,
) -> Result<Vec<OpenColumn>, ColumnarError>
    requires { AllByRecursion (λ p. is_entry reader.old.keys p.1 ≡ true) listed.items }
    ensures answer { AnswersForHandle (λ cs columns. map column_of columns.items ≡ cs)
        reader.old.file reader.new.file result
        (λ bytes. for_each (whole_entry bytes reader.old.keys) (map entry_listed listed.items)) }
    ensures rows { IfOk result (λ columns.
        AllByRecursion (HasRows reader.old.keys.row_count) (map column_of columns.items)) }
    ensures reads { Reads (length listed.items) reader.old reader.new }
{
    let mut columns = Vec::new(alloc);
    for (name, handle) in listed {
        let column = open_named(alloc, name, &handle, reader)?;
        columns.push(column)?;
    }
    Ok(columns)
}

// Opens the column of an entry of this name and handle.
fn open_named<F: FileHandle>(
    alloc: Global,
    name: String,
    handle: &DynamicColumnHandle,
    reader: &mut ColumnarReader<F>,
) -> Result<OpenColumn, ColumnarError>
    ensures answer { is_entry reader.old.keys handle.now ≡ true →
        AnswersForHandle (λ c column. column_of column ≡ c) reader.old.file reader.new.file result
        (λ bytes. whole_entry bytes reader.old.keys (entry_listed (name, handle.now))) }
    ensures rows { IfOk result (λ column. HasRows reader.old.keys.row_count (column_of column)) }
    ensures kept { Reads 1 reader.old reader.new }
{
    let column = handle.open(alloc, reader)?;
    Ok(OpenColumn { name, column })
}
