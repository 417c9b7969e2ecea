//! A CSV text written as a file, and the report on it.
ghost use Rattle.std.specs.Prelude.{◌≤◌, length};
ghost use Rattle.col_csv.specs.CsvTable.{table_of_csv};
ghost use Rattle.col_exchange.specs.Exchanges.{AnswersForText, IsImport};
ghost use Rattle.col_model.specs.File.{StandsFor};
ghost use Rattle.col_program.specs.Outcome.{max_script_length};

use crate::exporting::Exchanged;
use crate::reporting::report_on_made;
use bytes::Bytes;
use col_common::Buffer;
use col_csv::CsvError;
use col_csv_import::import_text;
use std::alloc::Global;

/// Writes the table of a text as a file of the current version, and makes a short report on it.
pub fn import_and_report(alloc: Global, text: &[u8]) -> Result<Exchanged, CsvError>
    requires short { length text.now ≤ max_script_length }
    ensures { AnswersForText IsImport result (table_of_csv text.now) }
{
    let bytes = file_of(alloc, text)?;
    match report_on_made(alloc, &bytes) {
        Ok(report) => Ok(Exchanged { bytes, report }),
        Err(_) => Err(CsvError::OutOfMemory),
    }
}

// The file of a text's table.
fn file_of(alloc: Global, text: &[u8]) -> Result<Bytes, CsvError>
    requires short { length text.now ≤ max_script_length }
    ensures { AnswersForText StandsFor result (table_of_csv text.now) }
{
    let mut file = Buffer::new(alloc);
    import_text(alloc, text, &mut file)?;
    match Bytes::from_vec(file.into_bytes()) {
        Ok(bytes) => Ok(bytes),
        Err(_) => Err(CsvError::OutOfMemory),
    }
}
