//! Reads the records of a text.
ghost use Rattle.std.specs.Prelude.{◌≡◌, ◌+◌, [], IfOk, get_or, length};
ghost use Rattle.csv.specs.Reading.{NotLengths, default_config, is_bom, records, strip_bom};
ghost use Rattle.csv.specs.Records.{fields_of};
ghost use Rattle.col_load_csv.specs.Readers.{IsReading, ReadsRecord, left_of};

use csv::{ByteRecord, ErrorKind, Reader, ReaderBuilder};
use std::alloc::{AllocError, Global};

/// A reader of the records of a text, of which none is a header to it.
pub(crate) fn reader_of(alloc: Global, text: &[u8]) -> Reader<&[u8]>
    ensures reading { IsReading result }
    ensures left { left_of (length (strip_bom text.now) + 1) result
        ≡ records default_config (strip_bom text.now) }
{
    ReaderBuilder::new()
        .has_headers(false)
        .flexible(true)
        .from_reader(alloc, text)
}

/// How many bytes a text has behind its byte order mark, if it has one: no fewer than records.
pub(crate) fn most_records(text: &[u8]) -> usize
    ensures { result ≡ length (strip_bom text.now) }
{
    if text.len() < 3 {
        return text.len();
    }
    if is_mark(text[0], text[1], text[2]) {
        return text.len() - 3;
    }
    text.len()
}

// Whether three bytes are a byte order mark.
fn is_mark(a: u8, b: u8, c: u8) -> bool
    ensures { result ≡ is_bom a b c }
{
    a == 0xEF && b == 0xBB && c == 0xBF
}

/// Reads the next record; none at the end. A text in memory refuses a read for want of memory
/// alone.
pub(crate) fn read_next(
    reader: &mut Reader<&[u8]>,
    row: &mut ByteRecord,
) -> Result<bool, AllocError>
    requires { IsReading reader.old }
    ensures { IfOk result (ReadsRecord reader.old reader.new (fields_of row.new)) }
{
    match reader.read_byte_record(row) {
        Ok(found) => Ok(found),
        Err(error) => Err(no_memory(error.kind())),
    }
}

// Want of memory, since a flexible reader has no other error of a text in memory.
fn no_memory(kind: &ErrorKind) -> AllocError
    requires { NotLengths kind.now }
{
    match kind {
        ErrorKind::UnequalLengths { .. } => unreachable!(),
        _ => AllocError,
    }
}

/// The field at a place; an empty one where there is none.
#[inline]
pub(crate) fn field_at(row: &ByteRecord, place: usize) -> &[u8]
    ensures { result.now ≡ get_or (fields_of row.now) place [] }
{
    match row.get(place) {
        Some(field) => field,
        None => &[],
    }
}
