//! Asks files for rows.

ghost use Rattle.std.specs.Prelude.{◌≡◌, true};
ghost use Rattle.col_common.specs.Ascending.{AreBelow, is_rising};

use crate::ask::{filter_items, named_columns, query_of};
use crate::csv_rows::print_csv;
use crate::ending::{BAD_WORDS, Ending};
use crate::forms::path_of;
use crate::inputs::unread;
use crate::rows::{chosen, put_object, rows_table};
use crate::shown::{Shown, term_shown};
use crate::table::{Table, plain};
use clap::ArgMatches;
use col_common::{ColumnarError, DocId, FileHandle, FileOnDisk};
use col_dynamic::DynamicColumn;
use col_facet::{FacetCell, facet, top_facets};
use col_file::ColumnarReader;
use col_opened::{OpenColumn, OpenColumns, open_all};
use col_query::answer;
use col_types::ColumnType;
use std::alloc::{AllocError, Global};
use std::{fs, io};

/// A file that is open.
pub type Reader = ColumnarReader<FileOnDisk<fs::File>>;

// How many of the most frequent values are printed.
const TOP: usize = 20;

/// Opens the file with a path, and tells how many bytes it has.
pub fn open(rt: &HostRuntime, path: &str) -> Result<(Reader, u64), Ending> {
    let alloc = rt.alloc();
    let file = match FileOnDisk::open(rt, path) {
        Ok(file) => file,
        Err(error) => return Err(unread(alloc, path, &error)),
    };
    let len = file.len();
    match ColumnarReader::open(alloc, file) {
        Ok(reader) => Ok((reader, len)),
        Err((_, error)) => Err(of_file(alloc, path, error)),
    }
}

/// A refusal of the store, with the path of the file.
pub fn of_file(alloc: Global, path: &str, error: ColumnarError) -> Ending {
    Ending {
        status: error.code(),
        text: format!(in alloc; "{path}: {error}").ok(),
    }
}

/// Does what `ask` is told.
pub fn ask(rt: &HostRuntime, matches: &ArgMatches<'_>, most: Option<usize>) -> Result<(), Ending> {
    let alloc = rt.alloc();
    let (Some(path), Some(words)) = (matches.get_str("FILE"), matches.get_str("WORDS")) else {
        return Ok(());
    };
    let (mut reader, _) = open(rt, path)?;
    let items = filter_items(alloc, words)?;
    let named = match named_columns(alloc, &mut reader, &items) {
        Ok(named) => named,
        Err(error) => return Err(of_file(alloc, path, error)),
    };
    let query = query_of(alloc, &named, &items)?;
    let docs = match answer(alloc, &mut reader, &query) {
        Ok(docs) => docs,
        Err(error) => return Err(of_file(alloc, path, error)),
    };
    let is_more = matches.contains_id("rows") || matches.contains_id("top");
    if matches.get_flag("count") || !is_more {
        print_text(rt, format!(in alloc; "{}\n", docs.len())?.as_str())?;
    }
    if !is_more {
        return Ok(());
    }
    match open_all(alloc, &mut reader) {
        Ok(columns) => show_docs(rt, matches, &columns, &docs, most),
        Err(error) => Err(of_file(alloc, path, error)),
    }
}

// Prints what is asked of documents beside their count.
fn show_docs(
    rt: &HostRuntime,
    matches: &ArgMatches<'_>,
    columns: &OpenColumns,
    docs: &[DocId],
    most: Option<usize>,
) -> Result<(), Ending> {
    let alloc = rt.alloc();
    if let Some(field) = matches.get_str("top") {
        print_text(rt, top_of(alloc, columns, docs, field, most)?.as_str())?;
    }
    if let Some(count) = matches.get_one::<u32>("rows") {
        let found = match chosen(alloc, columns, matches.get_strs("columns"))? {
            Ok(found) => found,
            Err(name) => return Err(no_column(alloc, name)),
        };
        let count = docs.len().min(count as usize);
        let table = rows_table(alloc, &found, &docs[..count])?;
        print_text(rt, table.text(alloc, most)?.as_str())?;
    }
    Ok(())
}

/// That no column has a name.
pub fn no_column(alloc: Global, name: &str) -> Ending {
    Ending {
        status: BAD_WORDS,
        text: format!(in alloc; "there is no column `{name}`").ok(),
    }
}

// The most frequent values of a field in documents, each with its count.
fn top_of(
    alloc: Global,
    columns: &OpenColumns,
    docs: &[DocId],
    field: &str,
    most: Option<usize>,
) -> Result<String, Ending> {
    let path = path_of(alloc, field)?;
    let mut table = Table::new(alloc);
    table.push_heading(String::from_str(alloc, "count")?, true)?;
    table.push_heading(plain(alloc, field)?, false)?;
    let mut is_there = false;
    for open in columns.columns() {
        if open.name.as_str() == field || open.name.as_str() == path.as_str() {
            is_there = true;
            push_top(alloc, &open.column, docs, &mut table)?;
        }
    }
    if !is_there {
        return Err(no_column(alloc, field));
    }
    Ok(table.text(alloc, most)?)
}

fn push_top(
    alloc: Global,
    column: &DynamicColumn,
    docs: &[DocId],
    table: &mut Table,
) -> Result<(), Ending> {
    if !rise_below(docs, column.num_docs()) {
        return Err(Ending::from(ColumnarError::InvalidData));
    }
    let facets = facet(alloc, column, docs)?;
    for counted in &top_facets(alloc, &facets, TOP)? {
        let shown = facet_shown(alloc, column.column_type(), &counted.cell)?;
        let mut row = Vec::new(alloc);
        row.push(counted.count.to_string(alloc)?)
            .map_err(AllocError::from)?;
        row.push(plain(alloc, shown.text(alloc)?.as_str())?)
            .map_err(AllocError::from)?;
        table.rows.push(row).map_err(AllocError::from)?;
    }
    Ok(())
}

// Whether documents ascend, each of them below a count.
fn rise_below(docs: &[DocId], count: u32) -> bool
    ensures rising { result ≡ true → is_rising docs.now ≡ true }
    ensures below { result ≡ true → AreBelow count docs.now }
{
    let mut next = 0;
    for doc in docs {
        if *doc < next {
            return false;
        }
        if *doc >= count {
            return false;
        }
        next = *doc + 1;
    }
    true
}

/// A cell of a column's type as it is shown.
pub fn facet_shown(
    alloc: Global,
    column_type: ColumnType,
    cell: &FacetCell,
) -> Result<Shown, AllocError> {
    match cell {
        FacetCell::Num(number) => Ok(match column_type {
            ColumnType::Bool => Shown::Flag(*number != 0),
            ColumnType::DateTime => match i64::try_from(*number) {
                Ok(nanos) => Shown::Time(nanos),
                Err(_) => Shown::Number(*number),
            },
            _ => Shown::Number(*number),
        }),
        FacetCell::Addr(bits) => Ok(Shown::Address(*bits)),
        FacetCell::Term(term) => {
            term_shown(alloc, column_type, Vec::from_slice(alloc, term.as_slice())?)
        }
    }
}

/// Prints a text.
pub fn print_text(rt: &HostRuntime, text: &str) -> Result<(), Ending> {
    match print!(rt; "{text}") {
        Ok(()) => Ok(()),
        Err(error) if error.kind() == io::ErrorKind::OutOfMemory => {
            Err(Ending::from(ColumnarError::OutOfMemory))
        }
        Err(_) => Err(Ending::from(ColumnarError::WriteFault)),
    }
}

/// Does what `dump` is told.
pub fn dump(rt: &HostRuntime, matches: &ArgMatches<'_>) -> Result<(), Ending> {
    let alloc = rt.alloc();
    let Some(path) = matches.get_str("FILE") else {
        return Ok(());
    };
    let (mut reader, _) = open(rt, path)?;
    let columns = match open_all(alloc, &mut reader) {
        Ok(columns) => columns,
        Err(error) => return Err(of_file(alloc, path, error)),
    };
    if matches.get_str("format") == Some("csv") {
        return print_csv(rt, columns.columns(), reader.num_docs());
    }
    print_objects(rt, columns.columns(), reader.num_docs())
}

// Prints documents as lines of JSON, many at a time.
fn print_objects(rt: &HostRuntime, columns: &[OpenColumn], num_docs: DocId) -> Result<(), Ending> {
    let mut text = String::new(rt.alloc());
    for doc in 0..num_docs {
        put_object(rt.alloc(), columns, doc, &mut text)?;
        text.push('\n')?;
        if text.len() > 65_536 {
            print_text(rt, text.as_str())?;
            text.clear();
        }
    }
    print_text(rt, text.as_str())
}
