//! Writes a file again.
ghost use Rattle.std.specs.Prelude.{◌≡◌, ◌≤◌, length};
ghost use Rattle.col_common.specs.Outside.{Grows};
ghost use Rattle.col_file.specs.Readers.{Reads};
ghost use Rattle.col_keys.specs.Put.{no_columns};
ghost use Rattle.col_upgrade.specs.Upgrades.{UpgradesFile, PutsAll};

use crate::entry::put_again;
use col_common::{ColumnarError, FileHandle, Sink};
use col_file::ColumnarReader;
use col_keys::ColumnarSerializer;
use std::alloc::Global;

/// Writes a file of the current version whose table is that of the reader's file: cardinalities,
/// unused terms and columns without values are kept. It answers InvalidData exactly where some
/// column isn't one of its type, and never TooLarge, since what can be read is within the limits.
/// One column at a time is in memory, and each is read once; a refusal may leave the front of a
/// file in the sink.
pub fn upgrade<F: FileHandle, K: Sink>(
    alloc: Global,
    reader: &mut ColumnarReader<F>,
    output: &mut K,
) -> Result<(), ColumnarError>
    ensures answer { UpgradesFile reader.old.file reader.new.file
        (K.seen output.old) (K.seen output.new) result }
    ensures kept { Reads (length reader.old.keys.entries) reader.old reader.new }
    // What the sink held stays in front, and its count of faults never falls.
    ensures grown { Grows (K.seen output.old) (K.seen output.new) }
    ensures later { (K.seen output.old).faults ≤ (K.seen output.new).faults }
{
    reader.file_is_whole();
    let mut columns = ColumnarSerializer::new(alloc);
    put_all(alloc, reader, &mut columns, output)?;
    columns.finalize(reader.num_docs(), output)
}

// Puts the columns of a file into another, one after another.
fn put_all<F: FileHandle, K: Sink>(
    alloc: Global,
    reader: &mut ColumnarReader<F>,
    columns: &mut ColumnarSerializer,
    output: &mut K,
) -> Result<(), ColumnarError>
    requires { columns.old ≡ no_columns }
    ensures answer { PutsAll reader.old reader.new columns.new
        (K.seen output.old) (K.seen output.new) result }
    ensures kept { Reads (length reader.old.keys.entries) reader.old reader.new }
    ensures grown { Grows (K.seen output.old) (K.seen output.new) }
    ensures later { (K.seen output.old).faults ≤ (K.seen output.new).faults }
{
    reader.file_is_whole();
    let listed = reader.list_columns(alloc)?;
    for entry in &listed {
        put_again(alloc, reader, entry.0.as_str(), &entry.1, columns, output)?;
    }
    Ok(())
}
