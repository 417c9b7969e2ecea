//! One input written as CSV, and the report on it.
ghost use Rattle.std.specs.Prelude.{◌≡◌, ◌+◌, length, map, vec_len};
ghost use Rattle.col_exchange.specs.Exchanges.{AnswersWithText, ExportsInput, ExportsOne};
ghost use Rattle.col_exchange.specs.Exchanges.{IsExport, IsText};
ghost use Rattle.col_file.specs.Files.{ReadsFile};
ghost use Rattle.col_file.specs.Readers.{Reads};

use crate::reporting::short_report;
use bytes::Bytes;
use col_common::{Buffer, FileHandle};
use col_csv::CsvError;
use col_csv_export::export_csv;
use col_file::ColumnarReader;
use col_report::Report;
use std::alloc::Global;

/// What goes to the output, and the report on its table.
#[derive(Drop)]
pub struct Exchanged {
    pub bytes: Bytes,
    pub report: Report,
}

/// Writes the table of the one input as CSV, and makes a short report on it. The input is handed
/// back.
pub fn export_and_report<H: FileHandle>(
    alloc: Global,
    inputs: &mut Vec<H>,
) -> Result<Exchanged, CsvError>
    requires one { vec_len inputs.old ≡ 1 }
    ensures { ExportsInput (map H.seen inputs.old.items) (map H.seen inputs.new.items) result }
{
    let Some(input) = inputs.pop() else {
        unreachable!()
    };
    let (input, made) = export_file(alloc, input);
    inputs.push_reserved(input);
    made
}

// The same of a file.
fn export_file<H: FileHandle>(alloc: Global, input: H) -> (H, Result<Exchanged, CsvError>)
    ensures { ExportsOne (H.seen input) (H.seen result.0) result.1 }
{
    match ColumnarReader::open(alloc, input) {
        Ok(reader) => export_opened(alloc, reader),
        Err((file, error)) => (file, Err(CsvError::from(error))),
    }
}

// The same of a file that was opened. Each of its entries is read twice: for the text, and for the
// report.
fn export_opened<H: FileHandle>(
    alloc: Global,
    reader: ColumnarReader<H>,
) -> (H, Result<Exchanged, CsvError>)
    ensures answer { AnswersWithText IsExport reader.file (H.seen result.0) result.1 }
    ensures reads { ReadsFile (length reader.keys.entries + length reader.keys.entries)
        reader.file (H.seen result.0) }
{
    let mut reader = reader;
    let made = text_and_report(alloc, &mut reader);
    (reader.into_file(), made)
}

// The text of an open file's table, and the report on it.
fn text_and_report<F: FileHandle>(
    alloc: Global,
    reader: &mut ColumnarReader<F>,
) -> Result<Exchanged, CsvError>
    ensures answer { AnswersWithText IsExport reader.old.file reader.new.file result }
    ensures kept { Reads (length reader.old.keys.entries + length reader.old.keys.entries)
        reader.old reader.new }
{
    let bytes = text_of(alloc, reader)?;
    let report = short_report(alloc, reader)?;
    Ok(Exchanged { bytes, report })
}

// The text of an open file's table.
fn text_of<F: FileHandle>(alloc: Global, reader: &mut ColumnarReader<F>) -> Result<Bytes, CsvError>
    ensures answer { AnswersWithText IsText reader.old.file reader.new.file result }
    ensures kept { Reads (length reader.old.keys.entries) reader.old reader.new }
{
    let mut text = Buffer::new(alloc);
    export_csv(alloc, reader, &mut text)?;
    match Bytes::from_vec(text.into_bytes()) {
        Ok(bytes) => Ok(bytes),
        Err(_) => Err(CsvError::OutOfMemory),
    }
}
