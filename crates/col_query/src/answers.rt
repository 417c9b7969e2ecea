//! Answers queries over an open file.
ghost use Rattle.std.specs.Prelude.{◌≡◌, length, IfOk, IfErr};
ghost use Rattle.col_common.specs.declared.error.ColumnarError.TheVariants as refusals;
ghost use Rattle.col_file.specs.Files.{AnswersForHandle};
ghost use Rattle.col_file.specs.Readers.{Reads};
ghost use Rattle.col_model.specs.Table.{Table};
ghost use Rattle.col_opened.specs.Opened.{AreOpen};
ghost use Rattle.col_program.specs.Queries.{answer_of};
ghost use Rattle.col_query.specs.Named.{entries_of, table_named};
ghost use Rattle.col_questions.specs.Steps.{tree_of};

use crate::evaluate::run_steps;
use crate::named::named_entries;
use col_common::{ColumnarError, DocId, FileHandle};
use col_file::ColumnarReader;
use col_opened::{OpenColumns, open_where};
use col_questions::Query;
use std::alloc::{AllocError, Global};

/// The documents of a query over a file, ascending. The columns that the query names and the file
/// has are opened first, each by one read; no other is read. It answers InvalidData exactly where
/// one of these isn't a column of its type.
pub fn answer<F: FileHandle>(
    alloc: Global,
    reader: &mut ColumnarReader<F>,
    query: &Query,
) -> Result<Vec<DocId>, ColumnarError>
    ensures answer { AnswersForHandle (λ t docs. docs.items ≡ answer_of t (tree_of query.now))
        reader.old.file reader.new.file result (table_named (tree_of query.now)) }
    // A file has one entry at most for a name and a type.
    ensures reads { Reads (length (entries_of (tree_of query.now) reader.old.keys.entries))
        reader.old reader.new }
{
    reader.file_is_whole();
    let named = named_entries(alloc, reader, query.steps())?;
    let columns = open_where(alloc, reader, &named)?;
    documents(alloc, reader, &columns, query)
}

/// The documents of a query over open columns of a file, ascending. A column that isn't open has no
/// values.
pub fn documents_of<F: FileHandle>(
    alloc: Global,
    reader: &ColumnarReader<F>,
    columns: &OpenColumns,
    query: &Query,
) -> Result<Vec<DocId>, AllocError>
    ensures { (t : Table) → AreOpen reader.now.keys t columns.now
        → IfOk result (λ docs. docs.items ≡ answer_of t (tree_of query.now)) }
{
    let set = run_steps(alloc, reader, columns, query.steps())?;
    set.into_list(alloc, reader.num_docs())
}

// The same, with the refusal as one of the store's.
fn documents<F: FileHandle>(
    alloc: Global,
    reader: &ColumnarReader<F>,
    columns: &OpenColumns,
    query: &Query,
) -> Result<Vec<DocId>, ColumnarError>
    ensures ok { (t : Table) → AreOpen reader.now.keys t columns.now
        → IfOk result (λ docs. docs.items ≡ answer_of t (tree_of query.now)) }
    ensures err { IfErr result (λ e. e ≡ refusals.OutOfMemory) }
{
    Ok(documents_of(alloc, reader, columns, query)?)
}
