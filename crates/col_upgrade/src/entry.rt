//! Writes the column of an entry again.
ghost use Rattle.std.specs.Prelude.{◌≡◌, ◌≤◌};
ghost use Rattle.col_common.specs.Outside.{Grows};
ghost use Rattle.col_file.specs.Columns.{content_at};
ghost use Rattle.col_file.specs.Files.{AnswersForHandle};
ghost use Rattle.col_file.specs.Readers.{Reads};
ghost use Rattle.col_upgrade.specs.Again.{StandsForContent};
ghost use Rattle.col_upgrade.specs.Upgrades.{PutsAgain};

use crate::whole_column::column_again;
use col_common::{Buffer, ColumnarError, FileHandle, Sink};
use col_file::{ColumnarReader, DynamicColumnHandle, read_column};
use col_keys::ColumnarSerializer;
use std::alloc::Global;

// Puts the column of an entry under its name, behind those of the file. It is read once.
pub(crate) fn put_again<F: FileHandle, K: Sink>(
    alloc: Global,
    reader: &mut ColumnarReader<F>,
    name: &str,
    handle: &DynamicColumnHandle,
    columns: &mut ColumnarSerializer,
    output: &mut K,
) -> Result<(), ColumnarError>
    ensures answer { PutsAgain reader.old reader.new columns.old columns.new
        (K.seen output.old) (K.seen output.new) result name.now handle.now }
    ensures kept { Reads 1 reader.old reader.new }
    // What the sink held stays in front, and its count of faults never falls.
    ensures grown { Grows (K.seen output.old) (K.seen output.new) }
    ensures later { (K.seen output.old).faults ≤ (K.seen output.new).faults }
{
    let bytes = entry_again(alloc, reader, handle)?;
    columns.put_column(name, handle.column_type(), bytes, output)
}

// The bytes of an entry's column, in the current version.
fn entry_again<F: FileHandle>(
    alloc: Global,
    reader: &mut ColumnarReader<F>,
    handle: &DynamicColumnHandle,
) -> Result<Buffer, ColumnarError>
    ensures answer { AnswersForHandle
        (StandsForContent handle.now.column_type reader.old.keys.row_count)
        reader.old.file reader.new.file result (content_at reader.old.keys handle.now) }
    ensures kept { Reads 1 reader.old reader.new }
{
    let bytes = read_column(alloc, reader, handle)?;
    column_again(
        alloc,
        handle.column_type(),
        bytes,
        reader.format_version(),
        reader.num_docs(),
    )
}
