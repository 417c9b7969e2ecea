//! Records that are taken one after another.
ghost use Rattle.std.specs.Prelude.{◌≡◌, ◌+◌, drop, map, IfErr, IfOk, OnOk};
ghost use Rattle.csv.specs.Records.{fields_of};
ghost use Rattle.col_load.specs.Loading.{IsStop};
ghost use Rattle.col_load.specs.Loads.{document_in};
ghost use Rattle.col_load_csv.specs.Columns.{document_of};
ghost use Rattle.col_load_csv.specs.Documents.{counts_behind, documents_behind, text_records};
ghost use Rattle.col_load_csv.specs.Read.{column_read};
ghost use Rattle.col_load_csv.specs.Taking.{HasTaken, TakesRecord};

use crate::column::Column;
use crate::records::{most_records, read_next, reader_of};
use crate::row::read_record;
use col_documents::DocumentError;
use col_load::{LineCounts, LoadError, Rows};
use csv::ByteRecord;
use std::alloc::Global;

/// What was recorded of the documents of records, and how many records were taken.
#[derive(Drop)]
pub(crate) struct Taken {
    pub(crate) rows: Rows,
    pub(crate) counts: LineCounts,
}

/// Takes the records of a text behind the first one.
///
/// # Errors
///
/// BadLine, with the record's number, where one is no document and such records aren't skipped.
pub(crate) fn take_records(
    alloc: Global,
    columns: &[Column],
    skips: bool,
    text: &[u8],
) -> Result<Taken, LoadError>
    ensures ok { IfOk result (HasTaken
        (documents_behind (map column_read columns.now) skips text.now)) }
    ensures counts { IfOk result (λ taken. taken.counts
        ≡ counts_behind (map column_read columns.now) (drop 1 (text_records text.now))) }
    ensures err { IfErr result (λ e. IsStop e
        (documents_behind (map column_read columns.now) skips text.now)) }
{
    let mut taken = Taken {
        rows: Rows::new(alloc),
        counts: LineCounts::none().with_line(),
    };
    let mut reader = reader_of(alloc, text);
    let mut row = ByteRecord::new(alloc);
    if !read_next(&mut reader, &mut row)? {
        return Ok(taken);
    }
    for _ in 0..most_records(text) {
        if !read_next(&mut reader, &mut row)? {
            return Ok(taken);
        }
        taken.take_record(alloc, columns, skips, &row)?;
    }
    Ok(taken)
}

impl Taken {
    // Takes a record more.
    fn take_record(
        &mut self,
        alloc: Global,
        columns: &[Column],
        skips: bool,
        row: &ByteRecord,
    ) -> Result<(), LoadError>
        ensures ok { OnOk result (TakesRecord self.old self.new skips
            (document_of (map column_read columns.now) (fields_of row.now))) }
        ensures err { IfErr result (λ e. IsStop e
            (document_in skips (self.old.counts.0 + 1)
            (document_of (map column_read columns.now) (fields_of row.now)))) }
    {
        if self.counts.lines() == u64::MAX {
            // No memory has so many records.
            return Err(LoadError::OutOfMemory);
        }
        match read_record(alloc, columns, row) {
            Ok(fields) => {
                self.rows.push(&fields)?;
                self.counts = self.counts.with_line();
                Ok(())
            }
            Err(DocumentError::OutOfMemory) => Err(LoadError::OutOfMemory),
            Err(DocumentError::Refused(refusal)) => {
                if skips {
                    self.counts = self.counts.with_skipped();
                    return Ok(());
                }
                Err(LoadError::BadLine {
                    number: self.counts.lines() + 1,
                    refusal,
                })
            }
        }
    }
}
