//! Reads the end of a file.
ghost use Rattle.std.specs.Prelude.{◌≡◌, ◌≤◌, slice_range, IfOk, IfSome};
ghost use Rattle.std.specs.List.{AllByRecursion};
ghost use Rattle.col_common.specs.Causes.{HasReadCause};
ghost use Rattle.col_common.specs.Decoding.{Decodes};
ghost use Rattle.col_keys.specs.Footers.{footer_of};
ghost use Rattle.col_model.specs.Keys.{keys};
ghost use Rattle.col_file.specs.Ends.{keys_behind};
ghost use Rattle.col_file.specs.Files.{ReadsFile, AnswersForHandle};
ghost use Rattle.col_file.specs.Readers.{IsWithin};

use crate::columnar_keys::ColumnarKeys;
use bytes::Bytes;
use col_common::{ColumnarError, FileHandle, HandleError};
use col_keys::{FOOTER_NUM_BYTES, Footer, parse_key_table, read_footer, take_all};
use std::alloc::Global;

// Reads what the end of a file says, in at most two reads.
pub(crate) fn read_keys<F: FileHandle>(
    alloc: Global,
    file: &mut F,
) -> Result<ColumnarKeys, ColumnarError>
    ensures answer { AnswersForHandle (λ expected k. k ≡ expected)
        (F.seen file.old) (F.seen file.new) result keys }
    ensures within { IfOk result
        (λ k. AllByRecursion (IsWithin (F.seen file.old).size) k.entries) }
    ensures file { ReadsFile 2 (F.seen file.old) (F.seen file.new) }
{
    let len = file.len();
    if len < FOOTER_NUM_BYTES {
        return Err(ColumnarError::InvalidData);
    }
    let rest_len = len - FOOTER_NUM_BYTES;
    let footer = read_part(alloc, file, rest_len, len)?;
    let Some(footer) = read_footer(footer.as_slice()) else {
        return Err(ColumnarError::InvalidData);
    };
    if rest_len < footer.key_table_len {
        return Err(ColumnarError::InvalidData);
    }
    let body_len = rest_len - footer.key_table_len;
    let table = read_part(alloc, file, body_len, rest_len)?;
    keys_of(alloc, footer, body_len, table.as_slice())
}

// Reads a part of a file, with the refusals that callers of this workspace hand on.
pub(crate) fn read_part<F: FileHandle>(
    alloc: Global,
    file: &mut F,
    start: u64,
    end: u64,
) -> Result<Bytes, ColumnarError>
    requires ordered { start ≤ «end» }
    requires within { «end» ≤ (F.seen file.old).size }
    ensures bytes { IfOk result (λ part.
        IfSome (F.seen file.old).told (λ bytes. part ≡ slice_range bytes start «end»)) }
    ensures cause { HasReadCause (F.seen file.old).faults (F.seen file.new).faults result }
    ensures file { ReadsFile 1 (F.seen file.old) (F.seen file.new) }
{
    match file.read(alloc, start, end) {
        Ok(part) => Ok(part),
        Err(HandleError::Failed) => Err(ColumnarError::ReadFault),
        Err(HandleError::Memory) => Err(ColumnarError::OutOfMemory),
    }
}

// What a footer and the key table before it say, where the columns take so many bytes.
fn keys_of(
    alloc: Global,
    footer: Footer,
    body_len: u64,
    table: &[u8],
) -> Result<ColumnarKeys, ColumnarError>
    ensures { Decodes (λ k. k) result (keys_behind (footer_of footer) body_len table.now) }
{
    let columns = parse_key_table(alloc, table)?;
    if !take_all(&columns, body_len) {
        return Err(ColumnarError::InvalidData);
    }
    Ok(ColumnarKeys::new(alloc, footer.num_docs, footer.version, columns)?)
}
