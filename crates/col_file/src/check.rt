//! Which entries of a file are columns.
ghost use Rattle.std.specs.Prelude.{◌≡◌, length, map, is_some, vec_len, IfOk, IfSome};
ghost use Rattle.col_common.specs.Causes.{HasReadCause};
ghost use Rattle.col_file.specs.Checks.{is_column};
ghost use Rattle.col_file.specs.Columns.{content_at};
ghost use Rattle.col_file.specs.Readers.{Reads};

use crate::dynamic_column_handle::DynamicColumnHandle;
use crate::reader::ColumnarReader;
use col_common::{ColumnarError, FileHandle};
use std::alloc::Global;

/// Tells of each entry, by name, then by the type's code, whether its bytes are a column of its
/// type. Each is read at most once, and one column at a time is in memory; an entry that is no
/// column is no refusal.
pub fn check_columns<F: FileHandle>(
    alloc: Global,
    reader: &mut ColumnarReader<F>,
) -> Result<Vec<bool>, ColumnarError>
    ensures ok { IfOk result (λ whole. IfSome reader.old.file.told (λ bytes.
        whole.items ≡ map (is_column bytes reader.old.keys) reader.old.keys.entries)) }
    // Also where the file doesn't tell its bytes.
    ensures len { IfOk result (λ whole. vec_len whole ≡ length reader.old.keys.entries) }
    // It refuses for want of memory, or where a read failed.
    ensures cause { HasReadCause reader.old.file.faults reader.new.file.faults result }
    ensures kept { Reads (length reader.old.keys.entries) reader.old reader.new }
{
    let count = reader.num_columns();
    let mut whole = Vec::with_capacity(alloc, count)?;
    for place in 0..count {
        let handle = reader.handle_at(place);
        let opened = opens(alloc, reader, &handle)?;
        whole.push(opened)?;
    }
    Ok(whole)
}

// Whether the bytes of a handle's column are one of its type.
fn opens<F: FileHandle>(
    alloc: Global,
    reader: &mut ColumnarReader<F>,
    handle: &DynamicColumnHandle,
) -> Result<bool, ColumnarError>
    ensures ok { IfOk result (λ opens. IfSome reader.old.file.told (λ bytes.
        opens ≡ is_some (content_at reader.old.keys handle.now bytes))) }
    ensures cause { HasReadCause reader.old.file.faults reader.new.file.faults result }
    ensures kept { Reads 1 reader.old reader.new }
{
    // What a column takes is asked of it when it is open.
    match handle.space_usage(alloc, reader) {
        Ok(_) => Ok(true),
        Err(ColumnarError::InvalidData) => Ok(false),
        Err(ColumnarError::ReadFault) => Err(ColumnarError::ReadFault),
        Err(ColumnarError::OutOfMemory) => Err(ColumnarError::OutOfMemory),
        Err(_) => unreachable!(),
    }
}
