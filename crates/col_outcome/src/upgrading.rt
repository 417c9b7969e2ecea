//! A file that is written again, and the report on it.
ghost use Rattle.std.specs.Prelude.{◌≡◌, [], true, length, map, vec_len};
ghost use Rattle.col_file.specs.Files.{AnswersForHandle, ReadsFile};
ghost use Rattle.col_file.specs.Readers.{Reads};
ghost use Rattle.col_model.specs.File.{table_of};
ghost use Rattle.col_outcome.specs.Making.{IsMade};
ghost use Rattle.col_outcome.specs.Upgrading.{UpgradesOne, UpgradesInput};

use crate::merging::{FileAndReport, report_on};
use bytes::Bytes;
use col_common::{Buffer, ColumnarError, FileHandle};
use col_file::ColumnarReader;
use col_upgrade::upgrade;
use std::alloc::Global;

/// Writes the one input again, as a file of the current version, and makes a short report on it. It
/// is handed back.
pub fn upgrade_and_report<H: FileHandle>(
    alloc: Global,
    inputs: &mut Vec<H>,
) -> Result<FileAndReport, ColumnarError>
    requires one { vec_len inputs.old ≡ 1 }
    ensures { UpgradesInput (map H.seen inputs.old.items) (map H.seen inputs.new.items) result }
{
    let Some(input) = inputs.pop() else {
        unreachable!()
    };
    let (input, made) = upgrade_file(alloc, input);
    inputs.push_reserved(input);
    made
}

// The same of a file.
fn upgrade_file<H: FileHandle>(alloc: Global, input: H) -> (H, Result<FileAndReport, ColumnarError>)
    ensures { UpgradesOne (H.seen input) (H.seen result.0) result.1 }
{
    match ColumnarReader::open(alloc, input) {
        Ok(reader) => upgrade_opened(alloc, reader),
        Err((file, error)) => (file, Err(error)),
    }
}

// The same of a file that was opened.
fn upgrade_opened<H: FileHandle>(
    alloc: Global,
    reader: ColumnarReader<H>,
) -> (H, Result<FileAndReport, ColumnarError>)
    ensures answer { AnswersForHandle (IsMade true []) reader.file (H.seen result.0) result.1
        table_of }
    ensures reads { ReadsFile (length reader.keys.entries) reader.file (H.seen result.0) }
{
    let mut reader = reader;
    let made = made_again(alloc, &mut reader);
    (reader.into_file(), made)
}

// The file of the current version, and the report on it.
fn made_again<F: FileHandle>(
    alloc: Global,
    reader: &mut ColumnarReader<F>,
) -> Result<FileAndReport, ColumnarError>
    ensures answer { AnswersForHandle (IsMade true []) reader.old.file reader.new.file result
        table_of }
    ensures kept { Reads (length reader.old.keys.entries) reader.old reader.new }
{
    let mut file = Buffer::new(alloc);
    upgrade(alloc, reader, &mut file)?;
    let file = Bytes::from_vec(file.into_bytes())?;
    let report = report_on(alloc, &file, &[], true)?;
    Ok(FileAndReport { file, report })
}
