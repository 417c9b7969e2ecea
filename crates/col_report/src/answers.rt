//! Puts the lines of queries.
ghost use Rattle.std.specs.Prelude.{◌∷◌, [], OnOk};
ghost use Rattle.col_model.specs.Table.{Table};
ghost use Rattle.col_opened.specs.Opened.{AreOpen};
ghost use Rattle.col_program.specs.Report.{answer_line};
ghost use Rattle.col_questions.specs.Steps.{tree_of};
ghost use Rattle.col_report.specs.Printed.{PutsLines};
ghost use Rattle.col_report.specs.Reported.{docs_line};

use crate::docs::put_docs;
use col_common::{DocId, FileHandle};
use col_file::ColumnarReader;
use col_opened::OpenColumns;
use col_print::Out;
use col_query::documents_of;
use col_questions::Query;
use std::alloc::{AllocError, Global};

// Puts the line of a query.
pub(crate) fn put_answer_line<F: FileHandle, O: Out>(
    alloc: Global,
    reader: &ColumnarReader<F>,
    columns: &OpenColumns,
    query: &Query,
    short: bool,
    out: &mut O,
) -> Result<(), AllocError>
    ensures { (t : Table) → AreOpen reader.now.keys t columns.now → OnOk result (PutsLines
        (O.seen out.old) (O.seen out.new) (answer_line t short (tree_of query.now) ∷ [])) }
{
    let docs = documents_of(alloc, reader, columns, query)?;
    put_docs_line(&docs, short, out);
    Ok(())
}

// Puts the line of these documents.
fn put_docs_line<O: Out>(docs: &[DocId], short: bool, out: &mut O)
    ensures { PutsLines (O.seen out.old) (O.seen out.new) (docs_line short docs.now ∷ []) }
{
    out.put(b"[\"query\",");
    put_docs(docs, short, out);
    out.put(b"]\n");
}
