//! Rows of files as CSV.

use crate::ending::{BAD_WORDS, Ending, ended_with};
use crate::forms::name_of;
use crate::rows::{has_same_name, name_of_member, values_of_member};
use col_common::{ColumnarError, DocId};
use col_opened::OpenColumn;
use csv::{ByteRecord, ErrorKind, WriterBuilder};
use std::alloc::{AllocError, Global};

/// Prints the rows of a file as CSV with a header line. A row with several values of a name is
/// refused, as a field has one.
pub fn print_csv(rt: &HostRuntime, columns: &[OpenColumn], num_docs: DocId) -> Result<(), Ending> {
    let alloc = rt.alloc();
    if columns.is_empty() {
        return Ok(());
    }
    let mut record = ByteRecord::new(alloc);
    for member in columns.chunk_by(has_same_name) {
        record.push_field(name_of(alloc, name_of_member(member))?.as_bytes())?;
    }
    let mut writer = WriterBuilder::new().from_writer(rt.stdout());
    written(writer.write_byte_record(&record))?;
    for doc in 0..num_docs {
        fill_record(alloc, columns, doc, &mut record)?;
        written(writer.write_byte_record(&record))?;
    }
    written(writer.flush())
}

fn fill_record(
    alloc: Global,
    columns: &[OpenColumn],
    doc: DocId,
    record: &mut ByteRecord,
) -> Result<(), Ending> {
    record.clear();
    for member in columns.chunk_by(has_same_name) {
        match values_of_member(alloc, member, doc)?.as_slice() {
            [] => record.push_field(b"")?,
            [value] => record.push_field(value.text(alloc)?.as_bytes())?,
            _ => return Err(several(alloc, member, doc)?),
        }
    }
    Ok(())
}

fn several(alloc: Global, member: &[OpenColumn], doc: DocId) -> Result<Ending, AllocError> {
    let name = name_of(alloc, name_of_member(member))?;
    let text = format!(in alloc;
        "row {doc} has several values of `{}`, and a field of CSV has one",
        name.as_str()
    )?;
    Ok(ended_with(BAD_WORDS, text))
}

fn written(answer: Result<(), csv::Error>) -> Result<(), Ending> {
    match answer {
        Ok(()) => Ok(()),
        Err(error) => Err(Ending::from(match error.kind() {
            ErrorKind::OutOfMemory => ColumnarError::OutOfMemory,
            _ => ColumnarError::WriteFault,
        })),
    }
}
