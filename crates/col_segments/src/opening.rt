//! Opens files in memory as segments.
ghost use Rattle.std.specs.Prelude.{◌≡◌, map, Some, IfOk, IfSome};
ghost use Rattle.std.specs.List.{list_all};
ghost use Rattle.col_file.specs.Checks.{is_column};
ghost use Rattle.col_segments.specs.Files.{IsTableFile, OpensBytes, ReadsTable, table_in};
ghost use Rattle.col_segments.specs.Segments.{all_alive, whole_file};
ghost use Rattle.col_writer_columns.specs.Answers.{Gives};

use crate::Segment;
use bytes::Bytes;
use col_common::{ColumnarError, FileInMemory};
use col_file::{ColumnarReader, check_columns};
use col_places::Alive;
use std::alloc::{AllocError, Global};

/// A file in memory that is open.
pub type Reader = ColumnarReader<FileInMemory>;

/// A file with all its rows alive, and the same file, open.
#[derive(Drop)]
pub struct Opened {
    pub segment: Segment,
    pub reader: Reader,
}

/// Opens a file with all its rows alive. It answers InvalidData exactly where the bytes stand for
/// no table.
pub fn open_segment(alloc: Global, file: Bytes) -> Result<Opened, ColumnarError>
    ensures segment { Gives (λ o. o.segment) result (whole_file file) }
    ensures reader { IfOk result (λ o. ReadsTable o.segment.table o.reader) }
{
    let mut reader = open_file(alloc, file.clone()?)?;
    if !are_columns(alloc, &mut reader)? {
        return Err(ColumnarError::InvalidData);
    }
    Ok(opened_whole(alloc, file, reader)?)
}

/// The same of a file that was made of a table. Its columns aren't opened.
pub fn made_segment(alloc: Global, file: Bytes) -> Result<Opened, AllocError>
    requires { IsTableFile file }
    ensures segment { IfOk result (λ o. o.segment ≡ all_alive (table_in file)) }
    ensures reader { IfOk result (λ o. ReadsTable o.segment.table o.reader) }
{
    let shared = file.clone()?;
    match open_file(alloc, shared) {
        Ok(reader) => opened_whole(alloc, file, reader),
        // What stands for a table is a file, so that memory alone is wanting.
        Err(_) => Err(AllocError),
    }
}

// Opens a file in memory.
fn open_file(alloc: Global, bytes: Bytes) -> Result<Reader, ColumnarError>
    ensures { OpensBytes bytes result }
{
    match ColumnarReader::open(alloc, FileInMemory::new(bytes)) {
        Ok(reader) => Ok(reader),
        Err((_, error)) => Err(error),
    }
}

// Whether the bytes of each entry are a column.
fn are_columns(alloc: Global, reader: &mut Reader) -> Result<bool, AllocError>
    ensures whole { IfOk result (λ whole. IfSome reader.old.file.told (λ bytes. whole
        ≡ list_all (λ w. w) (map (is_column bytes reader.old.keys) reader.old.keys.entries))) }
    ensures told { reader.new.file.told ≡ reader.old.file.told }
    ensures keys { reader.new.keys ≡ reader.old.keys }
{
    match check_columns(alloc, reader) {
        Ok(whole) => Ok(all_set(&whole)),
        // Bytes in memory refuse a read for want of memory alone.
        Err(_) => Err(AllocError),
    }
}

// Whether all flags are set.
fn all_set(flags: &[bool]) -> bool
    ensures { result ≡ list_all (λ flag. flag) flags.now }
{
    flags.iter().all(|flag| *flag)
}

// An open file of a table, with all its rows alive.
fn opened_whole(alloc: Global, file: Bytes, reader: Reader) -> Result<Opened, AllocError>
    requires table { IsTableFile file }
    requires told { reader.file.told ≡ Some file }
    ensures segment { IfOk result (λ o. o.segment ≡ all_alive (table_in file)) }
    ensures reader { IfOk result (λ o. ReadsTable o.segment.table o.reader) }
{
    reader.file_is_whole();
    let alive = Alive::all(alloc, reader.num_docs())?;
    let segment = Segment { file, alive };
    Ok(Opened { segment, reader })
}
