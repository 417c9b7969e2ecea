//! Writes a file's table as CSV.
ghost use Rattle.std.specs.Prelude.{◌≡◌, ◌<◌, ◌≤◌, length, map, OnOk};
ghost use Rattle.std.specs.List.{list_any};
ghost use Rattle.col_common.specs.Outside.{Grows};
ghost use Rattle.col_common.specs.Serializing.{Serializes};
ghost use Rattle.col_csv.specs.Csv.{header_fields, record_text, records_of, records_text};
ghost use Rattle.col_csv.specs.Csv.{row_records, is_multivalued_column};
ghost use Rattle.col_csv_export.specs.Exports.{ExportsFile, WritesText};
ghost use Rattle.col_csv_export.specs.Putting.{PutsText, rows_between};
ghost use Rattle.col_dynamic.specs.Dynamic.{content_of};
ghost use Rattle.col_file.specs.Readers.{Reads};
ghost use Rattle.col_model.specs.Limits.{is_multivalued};
ghost use Rattle.col_model.specs.Table.{Table};
ghost use Rattle.col_opened.specs.Opened.{column_of};

use crate::blocks::push_rows;
use crate::output::{put_record, write_held};
use crate::records::fill_header;
use col_common::{ColumnarError, FileHandle, Sink, serialize_bytes};
use col_csv::CsvError;
use col_dynamic::DynamicColumn;
use col_file::ColumnarReader;
use col_index::Cardinality;
use col_opened::{OpenColumn, OpenColumns, open_all};
use csv::ByteRecord;
use std::alloc::Global;

/// Writes the table of a reader's file as CSV: a record of the columns' types and names, and one
/// for each row. It answers InvalidData exactly where some column isn't one of its type, and
/// NotFlat exactly where one is Multivalued; these two add nothing, and a later refusal may leave
/// the front of the text in the sink. All columns are open at once, each by one read, and one row
/// beside them is in memory, with at most some 64 KB of text that isn't written yet.
pub fn export_csv<F: FileHandle, K: Sink>(
    alloc: Global,
    reader: &mut ColumnarReader<F>,
    output: &mut K,
) -> Result<(), CsvError>
    ensures answer { ExportsFile reader.old.file reader.new.file
        (K.seen output.old) (K.seen output.new) result }
    ensures kept { Reads (length reader.old.keys.entries) reader.old reader.new }
    // What the sink held stays in front, and its count of faults never falls.
    ensures grown { Grows (K.seen output.old) (K.seen output.new) }
    ensures later { (K.seen output.old).faults ≤ (K.seen output.new).faults }
{
    let columns = open_all(alloc, reader)?;
    let written = write_columns(alloc, columns.columns(), reader.num_docs(), output);
    let_go(columns);
    written
}

fn let_go(columns: OpenColumns) {
    drop(columns);
}

// Writes the text of a table of these columns, where none is Multivalued.
fn write_columns<K: Sink>(
    alloc: Global,
    columns: &[OpenColumn],
    row_count: u32,
    output: &mut K,
) -> Result<(), CsvError>
    ensures answer { (t : Table) → t.row_count ≡ row_count →
        map column_of columns.now ≡ t.columns →
        WritesText (K.seen output.old) (K.seen output.new) result t }
    ensures grown { Grows (K.seen output.old) (K.seen output.new) }
    ensures later { (K.seen output.old).faults ≤ (K.seen output.new).faults }
{
    if has_multivalued(columns) {
        return Err(CsvError::NotFlat);
    }
    write_records(alloc, columns, row_count, output)?;
    Ok(())
}

// Whether some column is Multivalued.
fn has_multivalued(columns: &[OpenColumn]) -> bool
    ensures { result ≡ list_any (λ c. is_multivalued_column (column_of c)) columns.now }
{
    columns.iter().any(|named| is_multivalued(&named.column))
}

// Whether a column is Multivalued.
fn is_multivalued(column: &DynamicColumn) -> bool
    ensures { result ≡ is_multivalued (content_of column.now).cardinality }
{
    column.get_cardinality() == Cardinality::Multivalued
}

// Writes the records of columns: the first, and one for each row.
fn write_records<K: Sink>(
    alloc: Global,
    columns: &[OpenColumn],
    row_count: u32,
    output: &mut K,
) -> Result<(), ColumnarError>
    ensures { Serializes (K.seen output.old) (K.seen output.new) result
        (records_text (records_of (map column_of columns.now) row_count)) }
{
    let mut held = Vec::new(alloc);
    put_header(alloc, columns, &mut held, output)?;
    put_rows(alloc, columns, row_count, &mut held, output)?;
    serialize_bytes(output, &held)
}

// Puts the first record.
#[tactic(auto, using(crate::proofs::PutLemmas::puts_fields, crate::proofs::PutLemmas::puts_memory))]
fn put_header<K: Sink>(
    alloc: Global,
    columns: &[OpenColumn],
    held: &mut Vec<u8>,
    output: &mut K,
) -> Result<(), ColumnarError>
    ensures { PutsText (K.seen output.old) (K.seen output.new) result held.old.items held.new.items
        (record_text (header_fields (map column_of columns.now))) }
{
    let mut field = Vec::new(alloc);
    let mut fields = ByteRecord::new(alloc);
    fill_header(columns, &mut field, &mut fields)?;
    put_record(alloc, &fields, held, output)
}

// Puts the records of rows, one block after another.
fn put_rows<K: Sink>(
    alloc: Global,
    columns: &[OpenColumn],
    row_count: u32,
    held: &mut Vec<u8>,
    output: &mut K,
) -> Result<(), ColumnarError>
    ensures { PutsText (K.seen output.old) (K.seen output.new) result held.old.items held.new.items
        (records_text (row_records (map column_of columns.now) row_count)) }
{
    let mut row = 0;
    while row < row_count {
        put_block(alloc, columns, &mut row, row_count, held, output)?;
    }
    Ok(())
}

// Puts the records of a block of rows from one on, and moves on to the row behind these.
fn put_block<K: Sink>(
    alloc: Global,
    columns: &[OpenColumn],
    row: &mut u32,
    row_count: u32,
    held: &mut Vec<u8>,
    output: &mut K,
) -> Result<(), ColumnarError>
    requires { row.old < row_count }
    ensures text { PutsText (K.seen output.old) (K.seen output.new) result held.old.items
        held.new.items (records_text (rows_between (map column_of columns.now) row.old row.new)) }
    ensures begun { OnOk result (row.old < row.new) }
    ensures within { OnOk result (row.new ≤ row_count) }
{
    push_rows(alloc, columns, row, row_count, held)?;
    write_held(held, output)
}
