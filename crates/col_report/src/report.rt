//! Reports on open files.
ghost use Rattle.std.specs.Prelude.{◌≡◌, ◌++◌, ◌∷◌, [], true, ℕ, List, length, map, flat_map, IfOk, OnOk, OnErr};
ghost use Rattle.serde_json.specs.View.{view};
ghost use Rattle.col_common.specs.Causes.{HasCause};
ghost use Rattle.col_common.specs.Outside.{WriteAppends};
ghost use Rattle.col_file.specs.Files.{AnswersForHandle};
ghost use Rattle.col_file.specs.Readers.{Reads};
ghost use Rattle.col_model.specs.File.{table_of};
ghost use Rattle.col_model.specs.Table.{Table};
ghost use Rattle.col_opened.specs.Opened.{column_of, AreOpen};
ghost use Rattle.col_print.specs.Puts.{Puts};
ghost use Rattle.col_program.specs.Report.{rows_line, column_lines, question_line, report_of, lines_text};
ghost use Rattle.col_questions.specs.Questions.{question_of};
ghost use Rattle.col_report.specs.Printed.{PutsLines};
ghost use Rattle.col_report.specs.Open.{report_text};

use crate::lines::put_column;
use crate::questions::put_questions;
use col_common::{ColumnarError, FileHandle, HandleError, Sink};
use col_file::ColumnarReader;
use col_opened::{OpenColumn, OpenColumns, open_all};
use col_print::{Out, TextInMemory, Through, put_number};
use col_questions::Question;
use serde_json::{Value, json};
use std::alloc::{AllocError, Global};
use std::marker::Model;

// The room of the buffer that a report goes through, in bytes.
const ROOM: usize = 65_536;

/// A report that wants no memory any more: the columns of its file are open, its questions are
/// answered, and there is a buffer for its text. Contracts see the text.
#[derive(Drop)]
pub struct Report {
    num_rows: u32,
    columns: OpenColumns,
    answers: Vec<u8>,
    short: bool,
    buffer: Vec<u8>,
}

impl Model for Report {
    ghost use Rattle.std.specs.Prelude.{ℕ, List};
    ghost use Rattle.col_report.specs.Open.{report_text};

    ghost Value = { List ℕ };

    ghost view = { λ r. report_text r.num_rows r.short r.columns r.answers.items };
}

/// Opens the report of a file and of the answers to questions on it; a short one leaves out the
/// rows, and counts the documents of lookups and queries. All columns are open at once. It answers
/// InvalidData where the bytes of some column are none of its type.
pub fn open_report<F: FileHandle>(
    alloc: Global,
    reader: &mut ColumnarReader<F>,
    questions: &[Question],
    short: bool,
) -> Result<Report, ColumnarError>
    ensures answer { AnswersForHandle
        (λ t report. report ≡ report_of t (map question_of questions.now) short)
        reader.old.file reader.new.file result table_of }
    // Also after a refusal.
    ensures reads { Reads (length reader.old.keys.entries) reader.old reader.new }
{
    let buffer = Vec::with_capacity(alloc, ROOM)?;
    let columns = open_all(alloc, reader)?;
    let Ok(answers) = answers_of(alloc, questions, reader, &columns, short) else {
        let_go(columns);
        return Err(ColumnarError::OutOfMemory);
    };
    Ok(Report {
        num_rows: reader.num_docs(),
        columns,
        answers,
        short,
        buffer,
    })
}

fn let_go(columns: OpenColumns) {
    drop(columns);
}

// The text of the answers to questions.
fn answers_of<F: FileHandle>(
    alloc: Global,
    questions: &[Question],
    reader: &ColumnarReader<F>,
    columns: &OpenColumns,
    short: bool,
) -> Result<Vec<u8>, AllocError>
    ensures { (t : Table) → AreOpen reader.now.keys t columns.now →
        IfOk result (λ text. text.items
        ≡ lines_text (map (λ q. question_line t short (question_of q)) questions.now)) }
{
    let mut text = TextInMemory::new(alloc);
    put_questions(alloc, questions, reader, columns, short, &mut text)?;
    text.into_bytes()
}

impl Report {
    /// Writes the text, by parts where the sink takes it so. Memory is wanted for a sink alone
    /// that keeps what is written.
    pub fn print<R: Sink>(self, alloc: Global, sink: &mut R) -> Result<(), HandleError>
        ensures appended { WriteAppends (R.seen sink.old) (R.seen sink.new) result self }
        ensures cause { HasCause (R.seen sink.old).faults (R.seen sink.new).faults result }
    {
        if sink.takes_parts() {
            return self.print_through(sink);
        }
        let text = self.into_text(alloc)?;
        sink.write_all(&text)
    }

    // Writes the text through the buffer.
    fn print_through<R: Sink>(self, sink: &mut R) -> Result<(), HandleError>
        requires { R.in_parts ≡ true }
        ensures appended { WriteAppends (R.seen sink.old) (R.seen sink.new) result self }
        ensures cause { HasCause (R.seen sink.old).faults (R.seen sink.new).faults result }
    {
        let Report {
            num_rows,
            columns,
            answers,
            short,
            mut buffer,
        } = self;
        buffer.clear();
        let mut out = Through::new(sink, &mut buffer);
        put_through(num_rows, &columns, &answers, short, &mut out);
        out.flush();
        out.ended()
    }

    // The text.
    fn into_text(self, alloc: Global) -> Result<Vec<u8>, AllocError>
        ensures { IfOk result (λ text. text.items ≡ self) }
    {
        let Report {
            num_rows,
            columns,
            answers,
            short,
            ..
        } = self;
        let mut text = TextInMemory::new(alloc);
        put_report(num_rows, &columns, &answers, short, &mut text);
        text.into_bytes()
    }
}

// Puts the text of a report into what leads to a sink, and that stays the same.
fn put_through<'a, R: Sink>(
    num_rows: u32,
    columns: &OpenColumns,
    answers: &[u8],
    short: bool,
    out: &mut Through<'a, R>,
)
    ensures puts { Puts (⟦<Through<'a, R> as Out>⟧.seen out.old)
        (⟦<Through<'a, R> as Out>⟧.seen out.new)
        (report_text num_rows short columns.now answers.now) }
    ensures same_reference { out.new.sink.ghost_name ≡ out.old.sink.ghost_name }
{
    put_report(num_rows, columns, answers, short, out);
}

// Puts the text of a report.
fn put_report<O: Out>(
    num_rows: u32,
    columns: &OpenColumns,
    answers: &[u8],
    short: bool,
    out: &mut O,
)
    ensures { Puts (O.seen out.old) (O.seen out.new)
        (report_text num_rows short columns.now answers.now) }
{
    put_rows_line(num_rows, out);
    put_columns(columns.columns(), short, out);
    out.put(answers);
}

// Puts the line of a row count.
fn put_rows_line<O: Out>(count: u32, out: &mut O)
    ensures { PutsLines (O.seen out.old) (O.seen out.new) (rows_line count ∷ []) }
{
    out.put(b"[\"rows\",");
    put_number(out, count as u64);
    out.put(b"]\n");
}

// Puts the lines of columns.
fn put_columns<O: Out>(columns: &[OpenColumn], short: bool, out: &mut O)
    ensures { PutsLines (O.seen out.old) (O.seen out.new)
        (flat_map (λ c. column_lines short (column_of c)) columns.now) }
{
    for named in columns {
        put_named(named, short, out);
    }
}

fn put_named<O: Out>(named: &OpenColumn, short: bool, out: &mut O)
    ensures { PutsLines (O.seen out.old) (O.seen out.new)
        (column_lines short (column_of named.now)) }
{
    put_column(&named.name, &named.column, short, out);
}

/// Appends the report of a file and the answers to questions on it; a short one leaves out the
/// rows, and counts the documents of lookups and queries. All columns are open at once. It answers
/// InvalidData where the bytes of some column are none of its type.
pub fn write_report<F: FileHandle>(
    alloc: Global,
    reader: &mut ColumnarReader<F>,
    questions: &[Question],
    short: bool,
    out: &mut Vec<u8>,
) -> Result<(), ColumnarError>
    ensures answer { AnswersForHandle (λ t _. out.new.items
        ≡ out.old.items ++ report_of t (map question_of questions.now) short)
        reader.old.file reader.new.file result table_of }
    ensures added { OnOk result ((more : List ℕ) × (out.new.items ≡ out.old.items ++ more)) }
    ensures kept { OnErr result (out.new.items ≡ out.old.items) }
    // Also after a refusal.
    ensures reads { Reads (length reader.old.keys.entries) reader.old reader.new }
{
    let report = open_report(alloc, reader, questions, short)?;
    let text = report.into_text(alloc)?;
    append(text, out)?;
    Ok(())
}

// Appends a text; where nothing stands before it, nothing is copied.
fn append(text: Vec<u8>, out: &mut Vec<u8>) -> Result<(), AllocError>
    ensures ok { OnOk result (out.new.items ≡ out.old.items ++ text.items) }
    ensures kept { OnErr result (out.new.items ≡ out.old.items) }
{
    if out.is_empty() {
        *out = text;
        return Ok(());
    }
    out.extend_from_slice(&text)
}

// The line of a row count.
pub(crate) fn rows_value(alloc: Global, count: u32) -> Result<Value, AllocError>
    ensures { IfOk result (λ v. view v ≡ rows_line count) }
{
    json!(in alloc; ["rows", count])
}
