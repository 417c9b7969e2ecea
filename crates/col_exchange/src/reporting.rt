//! Short reports on tables that are exchanged.
ghost use Rattle.std.specs.Prelude.{◌≡◌, [], true, length, Some, IfOk};
ghost use Rattle.col_exchange.specs.Exchanges.{IsShortReport};
ghost use Rattle.col_file.specs.Files.{AnswersForHandle};
ghost use Rattle.col_file.specs.Readers.{Reads};
ghost use Rattle.col_model.specs.File.{table_of};
ghost use Rattle.col_model.specs.Table.{Table};

use bytes::Bytes;
use col_common::{ColumnarError, FileHandle, MemHandle};
use col_file::ColumnarReader;
use col_report::{Report, open_report};
use std::alloc::{AllocError, Global};

// The short report on an open file, without questions.
pub(crate) fn short_report<F: FileHandle>(
    alloc: Global,
    reader: &mut ColumnarReader<F>,
) -> Result<Report, ColumnarError>
    ensures answer { AnswersForHandle IsShortReport
        reader.old.file reader.new.file result table_of }
    ensures kept { Reads (length reader.old.keys.entries) reader.old reader.new }
{
    open_report(alloc, reader, &[], true)
}

// The same on a file in memory that was made.
pub(crate) fn report_on_made(alloc: Global, file: &Bytes) -> Result<Report, AllocError>
    ensures { (t : Table) → table_of file.now ≡ Some t →
        IfOk result (λ report. IsShortReport t report) }
{
    let handle = MemHandle::new(file.clone()?, Vec::new(alloc));
    let Ok(mut reader) = ColumnarReader::open(alloc, handle) else {
        return Err(AllocError);
    };
    match short_report(alloc, &mut reader) {
        Ok(report) => Ok(report),
        // The columns of a file that was made are whole, so that memory alone is wanting.
        Err(_) => Err(AllocError),
    }
}
