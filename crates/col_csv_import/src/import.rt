//! Writes the table of a CSV text as a file.
ghost use Rattle.std.specs.Prelude.{◌≡◌, ◌≤◌, None, IfErr, IfSome, length, map, nat_lt, true};
ghost use Rattle.std.specs.FinMap.Entries.{is_sorted};
ghost use Rattle.col_common.specs.Causes.{Rose};
ghost use Rattle.col_csv.specs.CsvTable.{table_of_csv};
ghost use Rattle.col_csv_import.specs.Columns.{slotted};
ghost use Rattle.col_csv_import.specs.Filled.{IsFilled};
ghost use Rattle.col_csv_import.specs.Imports.{Imports, KeepsFront, MayRefuse, ReadsText};
ghost use Rattle.col_csv_import.specs.Imports.{outcome_of_text, table_or_bad};
ghost use Rattle.col_model.specs.Category.{slot_cmp};
ghost use Rattle.col_model.specs.Written.{written};
ghost use Rattle.col_program.specs.Outcome.{max_script_length};
ghost use Rattle.col_writer_file.specs.Tables.{WritesTable};

use crate::headings::take_header;
use crate::import_column::{ImportColumn, entries_of};
use crate::records::{read_next, reader_of, take_records};
use col_common::{ColumnarError, RowId, Sink, Source, read_to_limit};
use col_csv::{CsvError, texts_are_sound};
use col_writer_file::serialize_table;
use csv::ByteRecord;
use std::alloc::Global;

// The greatest length of a text, in bytes.
const MAX_TEXT_LEN: usize = 16_777_216;

/// Writes the table of what a source holds as a file of the current version. It answers LongCsv
/// exactly where the source holds more than 16,777,216 bytes, and else what `import_text` does.
pub fn import_csv<S: Source, K: Sink>(
    alloc: Global,
    source: &mut S,
    output: &mut K,
) -> Result<(), CsvError>
    ensures answer { IfSome (S.left source.old) (λ bytes.
        Imports (Rose (S.faults source.old) (S.faults source.new))
        (K.seen output.old) (K.seen output.new) result (outcome_of_text bytes)) }
    // Whatever the source tells, a refusal is one of these, and has its cause.
    ensures causes { IfErr result (MayRefuse (Rose (S.faults source.old) (S.faults source.new))
        (K.seen output.old) (K.seen output.new)) }
    ensures sink { KeepsFront (K.seen output.old) (K.seen output.new) }
    ensures source { ReadsText (S.left source.old) (S.left source.new)
        (S.faults source.old) (S.faults source.new) result }
{
    let text = read_to_limit(alloc, source, MAX_TEXT_LEN)?;
    if is_too_long(&text) {
        return Err(CsvError::LongCsv);
    }
    import_text(alloc, &text, output)
}

// Whether a text has more bytes than a text may have.
fn is_too_long(text: &[u8]) -> bool
    ensures { result ≡ nat_lt max_script_length (length text.now) }
{
    text.len() > MAX_TEXT_LEN
}

/// Writes the table of a text as a file of the current version. It answers BadCsv exactly where the
/// text has no table, and then adds nothing. The columns are in memory, as recorded, until they are
/// written.
pub fn import_text<K: Sink>(alloc: Global, text: &[u8], output: &mut K) -> Result<(), CsvError>
    requires { length text.now ≤ max_script_length }
    ensures answer { Imports (⊥) (K.seen output.old) (K.seen output.new) result
        (table_or_bad (table_of_csv text.now)) }
    ensures sink { KeepsFront (K.seen output.old) (K.seen output.new) }
{
    let table = fill_table(alloc, text)?;
    write_table(alloc, &table, output)?;
    Ok(())
}

// The columns of a table, and how many rows it has.
#[derive(Drop)]
struct FilledTable {
    columns: Vec<ImportColumn>,
    row_count: RowId,
}

// Reads the records of a text into columns.
fn fill_table(alloc: Global, text: &[u8]) -> Result<FilledTable, CsvError>
    requires { length text.now ≤ max_script_length }
    ensures { IsFilled (λ table. map slotted table.columns.items) (λ table. table.row_count) result
        (table_of_csv text.now) }
{
    texts_are_sound();
    let mut reader = reader_of(alloc, text);
    let mut fields = ByteRecord::new(alloc);
    if !read_next(&mut reader, &mut fields)? {
        return Err(CsvError::BadCsv);
    }
    let mut columns = take_header(alloc, &fields)?;
    let row_count = take_records(alloc, &mut reader, &mut fields, &mut columns)?;
    Ok(FilledTable { columns, row_count })
}

// Writes the columns of a table as a file.
fn write_table<K: Sink>(
    alloc: Global,
    table: &FilledTable,
    output: &mut K,
) -> Result<(), ColumnarError>
    requires { is_sorted slot_cmp (map slotted table.now.columns.items) ≡ true }
    ensures { WritesTable (K.seen output.old) (K.seen output.new) result
        (written (map slotted table.now.columns.items) table.now.row_count None) }
{
    let entries = entries_of(alloc, &table.columns)?;
    serialize_table(alloc, &entries, table.row_count, None, output)
}
