//! The merged file of a script and its inputs, and the report on it.
ghost use Rattle.std.specs.Prelude.{◌≡◌, ◌≤◌, ◌+◌, [], map, length, reverse, vec_len, vec_capacity, Some, Err, IfOk, IfErr, IfSome, option_map};
ghost use Rattle.std.specs.List.{AllByRecursion};
ghost use Rattle.col_model.specs.File.{StandsFor, table_of};
ghost use Rattle.col_model.specs.Merge.{merged};
ghost use Rattle.col_program.specs.Outcome.{script_table, segment_table};
ghost use Rattle.col_model.specs.Refusal.{each_ok};
ghost use Rattle.col_program.specs.Report.{report_of};
ghost use Rattle.col_program.specs.Script as model;
ghost use Rattle.col_questions.specs.Questions.{question_of};
ghost use Rattle.col_merge_plan.specs.Slots.{required_of};
ghost use Rattle.col_model.specs.Table.{Table};
ghost use Rattle.col_order.specs.RowOrders.{order_of};
ghost use Rattle.col_lines.specs.RowOrders.{row_order_of};
ghost use Rattle.col_script.specs.Scripts.{IsScript};
ghost use Rattle.col_outcome.specs.Making.{MakesIfRead, MergesInputs, MergesReaders, IsMade, IsKnown, SegmentsDecide, column_reads, merged_over};
ghost use Rattle.col_outcome.specs.Ordered.{merge_reads};
ghost use Rattle.col_outcome.specs.Parts.{files_in, handed_in, all_files, all_told, AllKeep, IsUnfailed, SomeFileRose};

use crate::inputs::{hand_back, open_file, open_files, open_inputs};
use crate::order::merge_row_order;
use crate::part::Part;
use crate::segments::segment_files;
use bytes::Bytes;
use col_common::{Buffer, ColumnarError, FileHandle};
use col_file::ColumnarReader;
use col_lines::RowOrder;
use col_merge::merge_columnar;
use col_order::MergeRowOrder;
use col_questions::Question;
use col_report::{Report, open_report};
use col_script::Script;
use col_types::ColumnType;
use std::alloc::{AllocError, Global};

/// A merged file, and the open report on it.
#[derive(Drop)]
pub struct FileAndReport {
    pub file: Bytes,
    pub report: Report,
}

/// Merges inputs, and behind them the segments of a script, and reports on what the merged file
/// says. A short report has no rows, and counts documents. The inputs are handed back in
/// order.
pub fn merge_and_report<H: FileHandle>(
    alloc: Global,
    script: Script,
    inputs: &mut Vec<H>,
    short: bool,
) -> Result<FileAndReport, ColumnarError>
    ensures made { (s : model.Script) → IsScript s script →
        IfSome (all_told (map H.seen inputs.old.items)) (λ files.
        MakesIfRead (IsMade short s.questions) result (script_table files s)) }
    ensures known { (s : model.Script) → IsScript s script → IfErr result IsKnown }
    ensures segments { (s : model.Script) → IsScript s script →
        SegmentsDecide (each_ok segment_table s.segments) result }
    ensures read_fault { (s : model.Script) → IsScript s script
        → result ≡ Err ColumnarError.ReadFault
        → SomeFileRose (map H.seen inputs.old.items) (map H.seen inputs.new.items) }
    ensures handles { AllKeep (map H.seen inputs.old.items) (map H.seen inputs.new.items) }
{
    let Script {
        segments,
        required,
        order,
        questions,
    } = script;
    let files = segment_files(alloc, &segments)?;
    drop(segments);
    merge_inputs(alloc, inputs, &files, &required, order, &questions, short)
}

// Merges inputs, and files that were made behind them; the inputs come back in order.
fn merge_inputs<H: FileHandle>(
    alloc: Global,
    inputs: &mut Vec<H>,
    files: &[Bytes],
    required: &[(String, ColumnType)],
    order: Option<RowOrder>,
    questions: &[Question],
    short: bool,
) -> Result<FileAndReport, ColumnarError>
    ensures { MergesInputs (IsMade short (map question_of questions.now))
        (handed_in H.seen inputs.old.items)
        (handed_in H.seen inputs.new.items)
        files.now (required_of required.now)
        (option_map row_order_of order) result }
{
    let Some(room) = inputs.len().checked_add(files.len()) else {
        return Err(ColumnarError::OutOfMemory);
    };
    let mut readers = Vec::with_capacity(alloc, room)?;
    inputs.reverse();
    let made = merge_opened(
        alloc,
        inputs,
        files,
        &mut readers,
        required,
        order,
        questions,
        short,
    );
    hand_back(readers, inputs);
    made
}

// Moves inputs into readers, the last one first, puts readers of the files behind them, and merges.
fn merge_opened<H: FileHandle>(
    alloc: Global,
    left: &mut Vec<H>,
    files: &[Bytes],
    readers: &mut Vec<ColumnarReader<Part<H>>>,
    required: &[(String, ColumnType)],
    order: Option<RowOrder>,
    questions: &[Question],
    short: bool,
) -> Result<FileAndReport, ColumnarError>
    requires none { readers.old.items ≡ [] }
    requires room { vec_len left.old + length files.now ≤ vec_capacity readers.old }
    ensures merges { AllByRecursion IsUnfailed (files_in readers.new.items)
        → MergesInputs (IsMade short (map question_of questions.now))
        (handed_in H.seen (reverse left.old.items))
        (all_files H.seen readers.new.items left.new.items)
        files.now (required_of required.now)
        (option_map row_order_of order) result }
    ensures kept { AllKeep
        (handed_in H.seen (reverse left.old.items))
        (all_files H.seen readers.new.items left.new.items) }
    ensures room { vec_capacity left.new ≡ vec_capacity left.old }
{
    open_inputs(alloc, left, readers)?;
    open_files(alloc, files, readers)?;
    merge_readers(alloc, readers, required, order, questions, short)
}

// Merges files, and reports on what the merged file says.
fn merge_readers<F: FileHandle>(
    alloc: Global,
    readers: &mut [ColumnarReader<F>],
    required: &[(String, ColumnType)],
    order: Option<RowOrder>,
    questions: &[Question],
    short: bool,
) -> Result<FileAndReport, ColumnarError>
    ensures { MergesReaders (IsMade short (map question_of questions.now))
        (merge_reads (option_map row_order_of order)) readers.old readers.new result
        (merged_over (required_of required.now) (option_map row_order_of order)) }
{
    let row_order = merge_row_order(alloc, readers, order)?;
    let file = merged_file(alloc, readers, required, row_order)?;
    let report = report_on(alloc, &file, questions, short)?;
    Ok(FileAndReport { file, report })
}

// The merged file.
fn merged_file<F: FileHandle>(
    alloc: Global,
    readers: &mut [ColumnarReader<F>],
    required: &[(String, ColumnType)],
    order: MergeRowOrder,
) -> Result<Bytes, ColumnarError>
    ensures { MergesReaders StandsFor column_reads readers.old readers.new result
        (λ parts. merged parts (required_of required.now) (order_of order)) }
{
    let mut file = Buffer::new(alloc);
    merge_columnar(alloc, readers, required, order, &mut file)?;
    let bytes = Bytes::from_vec(file.into_bytes())?;
    Ok(bytes)
}

// The report on a file.
pub(crate) fn report_on(
    alloc: Global,
    file: &Bytes,
    questions: &[Question],
    short: bool,
) -> Result<Report, AllocError>
    ensures { (t : Table) → table_of file.now ≡ Some t →
        IfOk result (λ report. report ≡ report_of t (map question_of questions.now) short) }
{
    let Ok(mut reader) = open_file(alloc, file.clone()?) else {
        return Err(AllocError);
    };
    match open_report(alloc, &mut reader, questions, short) {
        Ok(report) => Ok(report),
        // The columns of a file that was made are whole, so that memory alone is wanting.
        Err(_) => Err(AllocError),
    }
}
