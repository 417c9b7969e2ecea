//! Loads CSV with a header line into files.
ghost use Rattle.std.specs.Prelude.{◌≡◌, drop, map, IfErr, IfOk};
ghost use Rattle.col_documents.specs.Forms.{named_form};
ghost use Rattle.col_load.specs.Files.{LoadsFile, without_value};
ghost use Rattle.col_load.specs.Loads.{table_of_read};
ghost use Rattle.col_load_csv.specs.Documents.{counts_behind, counts_of_csv_records, documents_behind, table_of_csv_documents, text_records};
ghost use Rattle.col_load_csv.specs.Headed.{HasHeader, IsHeaderStop};
ghost use Rattle.col_load_csv.specs.Read.{column_read};

use crate::column::Column;
use crate::decide::decide;
use crate::header::columns_of;
use crate::records::{most_records, read_next, reader_of};
use crate::take::take_records;
use col_common::Sink;
use col_documents::{Form, Reason, Refusal};
use col_load::{LineCounts, LoadError, Rows};
use csv::ByteRecord;
use std::alloc::Global;

/// Writes a file of the documents of CSV (RFC 4180): the first record has the names of columns, and
/// each other one is a document, a row in order. `forms` says how fields are read by the names of
/// their columns. A column without a form has numbers, flags or texts, as all of its fields are, and
/// refuses fractions among numbers. Bad records are skipped, and counted, where `skips` is true.
///
/// # Errors
///
/// BadLine, with the number of the first record that is no document, from 1 on with the first
/// record, whose fields have to be names; TooMany beyond 4,294,967,295 documents; Columnar where
/// the documents have no table, or a write failed.
pub fn load_csv<K: Sink>(
    alloc: Global,
    forms: &[(String, Form)],
    skips: bool,
    text: &[u8],
    output: &mut K,
) -> Result<LineCounts, LoadError>
    ensures file { LoadsFile (K.seen output.old) (K.seen output.new) (without_value result)
        (table_of_csv_documents (map named_form forms.now) skips text.now) }
    ensures counts { IfOk result
        (λ counts. counts ≡ counts_of_csv_records (map named_form forms.now) text.now) }
{
    match read_columns(alloc, forms, text)? {
        Some(columns) => load_records(alloc, &columns, skips, text, output),
        None => {
            Rows::new(alloc).write(output)?;
            Ok(LineCounts::none())
        }
    }
}

// The columns that the first record names, with their kinds; none of a text without records.
fn read_columns(
    alloc: Global,
    forms: &[(String, Form)],
    text: &[u8],
) -> Result<Option<Vec<Column>>, LoadError>
    ensures ok { IfOk result (HasHeader (map named_form forms.now) text.now) }
    ensures err { IfErr result (IsHeaderStop (map named_form forms.now) text.now) }
{
    let mut reader = reader_of(alloc, text);
    let mut row = ByteRecord::new(alloc);
    if !read_next(&mut reader, &mut row)? {
        return Ok(None);
    }
    let Some(columns) = columns_of(alloc, forms, &row)? else {
        return Err(LoadError::BadLine {
            number: 1,
            refusal: Refusal {
                path: String::new(alloc),
                reason: Reason::Name,
            },
        });
    };
    let most = most_records(text);
    let columns = decide(alloc, &columns, &mut reader, &mut row, most)?;
    Ok(Some(columns))
}

// Writes a file of the records behind the first one.
fn load_records<K: Sink>(
    alloc: Global,
    columns: &[Column],
    skips: bool,
    text: &[u8],
    output: &mut K,
) -> Result<LineCounts, LoadError>
    ensures file { LoadsFile (K.seen output.old) (K.seen output.new) (without_value result)
        (table_of_read (documents_behind (map column_read columns.now) skips text.now)) }
    ensures counts { IfOk result (λ counts. counts
        ≡ counts_behind (map column_read columns.now) (drop 1 (text_records text.now))) }
{
    let taken = take_records(alloc, columns, skips, text)?;
    taken.rows.write(output)?;
    Ok(taken.counts)
}
