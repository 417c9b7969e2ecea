//! Puts the lines of lookups.
ghost use Rattle.std.specs.Prelude.{◌≡◌, ◌∷◌, [], Some, OnOk};
ghost use Rattle.serde_json.specs.Data.{null};
ghost use Rattle.col_dynamic.specs.Dynamic.{type_of, content_of};
ghost use Rattle.col_model.specs.Table.{Table};
ghost use Rattle.col_opened.specs.Opened.{AreOpen};
ghost use Rattle.col_program.specs.Report.{docs_data, found_line};
ghost use Rattle.col_questions.specs.Finds as finds;
ghost use Rattle.col_report.specs.Printed.{PutsLines};
ghost use Rattle.col_report.specs.Reported.{docs_in, find_line};

use crate::docs::put_docs;
use crate::lookups::find_docs;
use crate::names::put_name;
use col_common::{DocId, FileHandle};
use col_dynamic::DynamicColumn;
use col_file::ColumnarReader;
use col_opened::OpenColumns;
use col_print::Out;
use col_questions::Find;
use std::alloc::AllocError;

// Puts the line of a lookup.
pub(crate) fn put_found_line<F: FileHandle, O: Out>(
    reader: &ColumnarReader<F>,
    columns: &OpenColumns,
    find: &Find,
    short: bool,
    docs: &mut Vec<DocId>,
    out: &mut O,
) -> Result<(), AllocError>
    ensures { (t : Table) → AreOpen reader.now.keys t columns.now → OnOk result (PutsLines
        (O.seen out.old) (O.seen out.new) (found_line t short (finds.find_of find.now) ∷ [])) }
{
    match columns.get(reader, &find.name, find.ends.column_type()) {
        Some(column) => put_find(column, find, short, docs, out),
        None => {
            put_absent(find, out);
            Ok(())
        }
    }
}

// Puts the line of a lookup in a column of its type.
fn put_find<O: Out>(
    column: &DynamicColumn,
    find: &Find,
    short: bool,
    docs: &mut Vec<DocId>,
    out: &mut O,
) -> Result<(), AllocError>
    requires { type_of column.now ≡ finds.ends_type find.now.ends }
    ensures { OnOk result (PutsLines (O.seen out.old) (O.seen out.new)
        (find_line (finds.find_of find.now)
        (docs_in short (finds.find_of find.now) (Some (content_of column.now))) ∷ [])) }
{
    let Ok(()) = find_docs(column, find, docs) else {
        return Err(AllocError);
    };
    put_found(find, docs, short, out);
    Ok(())
}

// Puts the line of a lookup that found these documents.
fn put_found<O: Out>(find: &Find, docs: &[DocId], short: bool, out: &mut O)
    ensures { PutsLines (O.seen out.old) (O.seen out.new)
        (find_line (finds.find_of find.now) (docs_data short docs.now) ∷ []) }
{
    out.put(b"[\"find\",");
    put_name(&find.name, find.ends.column_type(), out);
    put_docs(docs, short, out);
    out.put(b"]\n");
}

// Puts the line of a lookup where there is no such column.
fn put_absent<O: Out>(find: &Find, out: &mut O)
    ensures { PutsLines (O.seen out.old) (O.seen out.new)
        (find_line (finds.find_of find.now) null ∷ []) }
{
    out.put(b"[\"find\",");
    put_name(&find.name, find.ends.column_type(), out);
    out.put(b"null]\n");
}
