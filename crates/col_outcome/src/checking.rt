//! A check of an input.
ghost use Rattle.std.specs.Prelude.{◌≡◌, length, map, vec_len};
ghost use Rattle.col_file.specs.Files.{AnswersForHandle, ReadsFile};
ghost use Rattle.col_program.specs.Check.{check_report};
ghost use Rattle.col_model.specs.File.{parts_of};
ghost use Rattle.col_outcome.specs.Checking.{ChecksFile, ChecksInput};

use col_common::{ColumnarError, FileHandle};
use col_file::ColumnarReader;
use col_report::report_on_check;
use std::alloc::Global;

/// Checks the one input, and reports on which of its entries are columns. It is handed back.
pub fn check_and_report<H: FileHandle>(
    alloc: Global,
    inputs: &mut Vec<H>,
) -> Result<Vec<u8>, ColumnarError>
    requires one { vec_len inputs.old ≡ 1 }
    ensures { ChecksInput (map H.seen inputs.old.items) (map H.seen inputs.new.items) result }
{
    let Some(input) = inputs.pop() else {
        unreachable!()
    };
    let (input, report) = check_file(alloc, input);
    inputs.push_reserved(input);
    report
}

// The same of a file.
fn check_file<H: FileHandle>(alloc: Global, input: H) -> (H, Result<Vec<u8>, ColumnarError>)
    ensures { ChecksFile (H.seen input) (H.seen result.0) result.1 }
{
    match ColumnarReader::open(alloc, input) {
        Ok(reader) => check_opened(alloc, reader),
        Err((file, error)) => (file, Err(error)),
    }
}

// The same of a file that was opened.
fn check_opened<H: FileHandle>(
    alloc: Global,
    reader: ColumnarReader<H>,
) -> (H, Result<Vec<u8>, ColumnarError>)
    ensures answer { AnswersForHandle (λ p report. report.items ≡ check_report p)
        reader.file (H.seen result.0) result.1 parts_of }
    ensures reads { ReadsFile (length reader.keys.entries) reader.file (H.seen result.0) }
{
    let mut reader = reader;
    let report = report_on_check(alloc, &mut reader);
    (reader.into_file(), report)
}
