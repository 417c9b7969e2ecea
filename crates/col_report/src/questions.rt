//! Puts the lines of questions.
ghost use Rattle.std.specs.Prelude.{◌∷◌, [], map, OnOk};
ghost use Rattle.col_model.specs.Table.{Table};
ghost use Rattle.col_opened.specs.Opened.{AreOpen};
ghost use Rattle.col_program.specs.Report.{question_line};
ghost use Rattle.col_questions.specs.Questions.{question_of};
ghost use Rattle.col_report.specs.Printed.{PutsLines};

use crate::answers::put_answer_line;
use crate::counts::put_counts_line;
use crate::found::put_found_line;
use col_common::{DocId, FileHandle};
use col_file::ColumnarReader;
use col_opened::OpenColumns;
use col_print::Out;
use col_questions::Question;
use std::alloc::{AllocError, Global};

// Puts the lines of questions.
pub(crate) fn put_questions<F: FileHandle, O: Out>(
    alloc: Global,
    questions: &[Question],
    reader: &ColumnarReader<F>,
    columns: &OpenColumns,
    short: bool,
    out: &mut O,
) -> Result<(), AllocError>
    ensures { (t : Table) → AreOpen reader.now.keys t columns.now → OnOk result
        (PutsLines (O.seen out.old) (O.seen out.new)
        (map (λ q. question_line t short (question_of q)) questions.now)) }
{
    let mut docs = Vec::new(alloc);
    for question in questions {
        put_question(alloc, reader, columns, question, short, &mut docs, out)?;
    }
    Ok(())
}

// Puts the line of a question.
fn put_question<F: FileHandle, O: Out>(
    alloc: Global,
    reader: &ColumnarReader<F>,
    columns: &OpenColumns,
    question: &Question,
    short: bool,
    docs: &mut Vec<DocId>,
    out: &mut O,
) -> Result<(), AllocError>
    ensures { (t : Table) → AreOpen reader.now.keys t columns.now → OnOk result
        (PutsLines (O.seen out.old) (O.seen out.new)
        (question_line t short (question_of question.now) ∷ [])) }
{
    match question {
        Question::Find(find) => put_found_line(reader, columns, find, short, docs, out),
        Question::Facet { name, column_type } => {
            put_counts_line(alloc, reader, columns, name, *column_type, out)
        }
        Question::Query(query) => put_answer_line(alloc, reader, columns, query, short, out),
    }
}
