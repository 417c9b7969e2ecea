//! Reports on checks of files.
ghost use Rattle.std.specs.Prelude.{◌≡◌, ◌⊎◌, ◌∷◌, [], length, map, IfOk, IfErr, OnOk};
ghost use Rattle.serde_json.specs.View.{view};
ghost use Rattle.col_file.specs.Files.{AnswersForHandle};
ghost use Rattle.col_file.specs.Readers.{Reads};
ghost use Rattle.col_program.specs.Check.{check_report};
ghost use Rattle.col_model.specs.File.{parts_of};
ghost use Rattle.col_program.specs.Report.{Prints};
ghost use Rattle.col_report.specs.Checked.{listed_name, lines_told, told_line, told_lines};

use crate::report::rows_value;
use col_common::{ColumnarError, FileHandle};
use col_file::{ColumnarReader, DynamicColumnHandle, check_columns};
use col_lines::push_line;
use serde_json::{Value, json};
use std::alloc::{AllocError, Global};

/// Reports on a check of a file: how many rows it has, and of each entry whether its bytes are a
/// column. It refuses for want of memory, or where a read failed.
pub fn report_on_check<F: FileHandle>(
    alloc: Global,
    reader: &mut ColumnarReader<F>,
) -> Result<Vec<u8>, ColumnarError>
    ensures answer { AnswersForHandle (λ p report. report.items ≡ check_report p)
        reader.old.file reader.new.file result parts_of }
    ensures causes { IfErr result (λ e.
        (e ≡ ColumnarError.OutOfMemory) ⊎ (e ≡ ColumnarError.ReadFault)) }
    ensures reads { Reads (length reader.old.keys.entries) reader.old reader.new }
{
    reader.file_is_whole();
    let whole = check_columns(alloc, reader)?;
    let report = report_of_entries(alloc, reader, &whole)?;
    Ok(report)
}

// The report of entries, of each of which it is told whether it is a column.
fn report_of_entries<F: FileHandle>(
    alloc: Global,
    reader: &ColumnarReader<F>,
    whole: &[bool],
) -> Result<Vec<u8>, AllocError>
    requires { length whole.now ≡ length reader.now.keys.entries }
    ensures { IfOk result (λ report.
        Prints [] report.items (lines_told reader.now.keys whole.now)) }
{
    let Ok(columns) = reader.list_columns(alloc) else {
        return Err(AllocError);
    };
    let mut report = Vec::new(alloc);
    let value = rows_value(alloc, reader.num_docs())?;
    push_line(alloc, &mut report, &value)?;
    push_entries(alloc, &columns, whole, &mut report)?;
    Ok(report)
}

// Appends the lines of entries.
fn push_entries(
    alloc: Global,
    columns: &[(String, DynamicColumnHandle)],
    whole: &[bool],
    out: &mut Vec<u8>,
) -> Result<(), AllocError>
    requires { length whole.now ≡ length columns.now }
    ensures { OnOk result (Prints out.old.items out.new.items
        (told_lines (map listed_name columns.now) whole.now)) }
{
    for place in 0..columns.len() {
        push_entry(alloc, &columns[place], whole[place], out)?;
    }
    Ok(())
}

// Appends the line of an entry.
fn push_entry(
    alloc: Global,
    column: &(String, DynamicColumnHandle),
    whole: bool,
    out: &mut Vec<u8>,
) -> Result<(), AllocError>
    ensures { OnOk result (Prints out.old.items out.new.items
        (told_line (listed_name column.now) whole ∷ [])) }
{
    let (name, handle) = column;
    let value = entry_value(alloc, name, handle, whole)?;
    push_line(alloc, out, &value)
}

fn entry_value(
    alloc: Global,
    name: &str,
    handle: &DynamicColumnHandle,
    whole: bool,
) -> Result<Value, AllocError>
    ensures { IfOk result (λ v. view v ≡ told_line (name.now, handle.now) whole) }
{
    let kind = handle.column_type().word();
    json!(in alloc; ["entry", name, kind, whole])
}
