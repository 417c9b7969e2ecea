//! Looks into files.

use crate::ask::quoted;
use crate::asked::{Reader, facet_shown, no_column, of_file, open, print_text};
use crate::draw::drawing_of;
use crate::ending::Ending;
use crate::forms::{name_of, path_of};
use crate::page::{BEHIND, FRONT, put_drawing, put_table};
use crate::rows::{chosen, put_object, rows_table};
use crate::table::{Table, plain};
use clap::ArgMatches;
use col_common::DocId;
use col_dynamic::DynamicColumn;
use col_facet::FacetCell;
use col_look::{Description, describe};
use col_opened::open_all;
use std::alloc::{AllocError, Global};

/// What is told of a column of a file.
#[derive(Drop)]
pub struct Told {
    pub name: String,
    pub bytes: u64,
    pub description: Description,
}

/// Does what `look` is told.
pub fn look(rt: &HostRuntime, matches: &ArgMatches<'_>, most: Option<usize>) -> Result<(), Ending> {
    let paths = matches.get_strs("FILE").unwrap_or(&[]);
    if matches.get_flag("html") {
        return show_page(rt, paths);
    }
    for path in paths {
        look_into(rt, matches, path, most)?;
    }
    Ok(())
}

// Prints a page on files: their columns, and a drawing of each.
fn show_page(rt: &HostRuntime, paths: &[&str]) -> Result<(), Ending> {
    let alloc = rt.alloc();
    let mut page = String::from_str(alloc, FRONT)?;
    for path in paths {
        let (mut reader, len) = open(rt, path)?;
        let told = told_of(alloc, &mut reader, path)?;
        let summary = summary_of(alloc, &reader, len, &told)?;
        put_table(alloc, path, summary.as_str(), &told, &mut page)?;
        for (name, handle) in reader.list_columns(alloc)? {
            let column = match handle.open(alloc, &mut reader) {
                Ok(column) => column,
                Err(error) => return Err(of_file(alloc, path, error)),
            };
            let name = name_of(alloc, name.as_str())?;
            put_drawing(
                alloc,
                name.as_str(),
                &drawing_of(alloc, &column)?,
                &mut page,
            )?;
        }
    }
    page.push_str(BEHIND)?;
    print_text(rt, page.as_str())
}

fn look_into(
    rt: &HostRuntime,
    matches: &ArgMatches<'_>,
    path: &str,
    most: Option<usize>,
) -> Result<(), Ending> {
    let (mut reader, len) = open(rt, path)?;
    let as_json = matches.get_flag("json");
    if let Some(name) = matches.get_str("column") {
        return draw(rt, &mut reader, path, name, as_json, most);
    }
    if matches.contains_id("rows") || matches.contains_id("from") {
        return show_rows(rt, matches, &mut reader, path, most);
    }
    let told = told_of(rt.alloc(), &mut reader, path)?;
    let text = if as_json {
        json_of(rt.alloc(), &reader, path, len, &told)?
    } else {
        text_of(rt.alloc(), &reader, path, len, &told, most)?
    };
    print_text(rt, text.as_str())
}

// Each column of a file, one open at a time.
fn told_of(alloc: Global, reader: &mut Reader, path: &str) -> Result<Vec<Told>, Ending> {
    let mut told = Vec::new(alloc);
    for (name, handle) in reader.list_columns(alloc)? {
        let bytes = handle.num_bytes().get_bytes();
        let column = match handle.open(alloc, reader) {
            Ok(column) => column,
            Err(error) => return Err(of_file(alloc, path, error)),
        };
        let description = described(alloc, &column)?;
        told.push(Told {
            name,
            bytes,
            description,
        })
        .map_err(AllocError::from)?;
    }
    Ok(told)
}

fn described(alloc: Global, column: &DynamicColumn) -> Result<Description, AllocError> {
    describe(alloc, column)
}

/// The headings of what is told of columns, and whether what stands below ends at one place.
pub fn headings() -> [(&'static str, bool); 8] {
    [
        ("column", false),
        ("type", false),
        ("cardinality", false),
        ("values", true),
        ("distinct", true),
        ("least", false),
        ("greatest", false),
        ("bytes", true),
    ]
}

// A line on a file.
fn summary_of(
    alloc: Global,
    reader: &Reader,
    len: u64,
    told: &[Told],
) -> Result<String, AllocError> {
    format!(in alloc;
        "{} rows, {} columns, {len} bytes, version {}",
        reader.num_docs(),
        told.len(),
        version_of(reader)
    )
}

// The table of a file's columns, below a line on the file.
fn text_of(
    alloc: Global,
    reader: &Reader,
    path: &str,
    len: u64,
    told: &[Told],
    most: Option<usize>,
) -> Result<String, AllocError> {
    let mut table = Table::new(alloc);
    for (name, is_right) in headings() {
        table.push_heading(String::from_str(alloc, name)?, is_right)?;
    }
    for one in told {
        table.rows.push(cells_of(alloc, one)?)?;
    }
    let summary = summary_of(alloc, reader, len, told)?;
    let mut text = format!(in alloc; "{path}: {}\n", summary.as_str())?;
    if !told.is_empty() {
        text.push_str(table.text(alloc, most)?.as_str())?;
    }
    Ok(text)
}

/// What is told of a column, below the headings.
pub fn cells_of(alloc: Global, told: &Told) -> Result<Vec<String>, AllocError> {
    let description = &told.description;
    let mut row = Vec::new(alloc);
    let name = name_of(alloc, told.name.as_str())?;
    row.push(plain(alloc, name.as_str())?)?;
    row.push(String::from_str(alloc, description.column_type.word())?)?;
    row.push(description.cardinality.to_string(alloc)?)?;
    row.push(description.num_values.to_string(alloc)?)?;
    row.push(match description.distinct {
        Some(count) => count.to_string(alloc)?,
        None => String::new(alloc),
    })?;
    row.push(end_text(alloc, description, &description.least)?)?;
    row.push(end_text(alloc, description, &description.greatest)?)?;
    row.push(told.bytes.to_string(alloc)?)?;
    Ok(row)
}

fn end_text(
    alloc: Global,
    description: &Description,
    end: &Option<FacetCell>,
) -> Result<String, AllocError> {
    match end {
        Some(cell) => {
            let shown = facet_shown(alloc, description.column_type, cell)?;
            plain(alloc, shown.text(alloc)?.as_str())
        }
        None => Ok(String::new(alloc)),
    }
}

// The same as lines of JSON.
fn json_of(
    alloc: Global,
    reader: &Reader,
    path: &str,
    len: u64,
    told: &[Told],
) -> Result<String, AllocError> {
    let mut text = format!(in alloc;
        "{{\"file\":{},\"rows\":{},\"columns\":{},\"bytes\":{len},\"version\":{}}}\n",
        quoted(alloc, path)?.as_str(),
        reader.num_docs(),
        told.len(),
        version_of(reader)
    )?;
    for one in told {
        let description = &one.description;
        let line = format!(in alloc;
            "{{\"column\":{},\"type\":\"{}\",\"cardinality\":\"{}\",\"values\":{},\"rows\":{},",
            quoted(alloc, name_of(alloc, one.name.as_str())?.as_str())?.as_str(),
            description.column_type.word(),
            description.cardinality,
            description.num_values,
            description.num_rows_with_values
        )?;
        text.push_str(line.as_str())?;
        if let Some(count) = description.distinct {
            text.push_str(format!(in alloc; "\"distinct\":{count},")?.as_str())?;
        }
        put_end(alloc, description, "least", &description.least, &mut text)?;
        put_end(
            alloc,
            description,
            "greatest",
            &description.greatest,
            &mut text,
        )?;
        text.push_str(format!(in alloc; "\"bytes\":{}}}\n", one.bytes)?.as_str())?;
    }
    Ok(text)
}

// The number of a file's version.
fn version_of(reader: &Reader) -> u8 {
    reader.format_version().to_bytes()[0]
}

fn put_end(
    alloc: Global,
    description: &Description,
    name: &str,
    end: &Option<FacetCell>,
    text: &mut String,
) -> Result<(), AllocError> {
    let Some(cell) = end else {
        return Ok(());
    };
    let shown = facet_shown(alloc, description.column_type, cell)?;
    let spelled = shown.text(alloc)?;
    let value = if shown.is_bare() {
        spelled
    } else {
        quoted(alloc, spelled.as_str())?
    };
    text.push_str(format!(in alloc; "\"{name}\":{},", value.as_str())?.as_str())
}

// Rows as an aligned table, or as lines of JSON.
fn show_rows(
    rt: &HostRuntime,
    matches: &ArgMatches<'_>,
    reader: &mut Reader,
    path: &str,
    most: Option<usize>,
) -> Result<(), Ending> {
    let alloc = rt.alloc();
    let count = matches.get_one::<u32>("rows").unwrap_or(10);
    let start = matches
        .get_one::<u32>("from")
        .unwrap_or(0)
        .min(reader.num_docs());
    let end = start.saturating_add(count).min(reader.num_docs());
    let columns = match open_all(alloc, reader) {
        Ok(columns) => columns,
        Err(error) => return Err(of_file(alloc, path, error)),
    };
    if matches.get_flag("json") {
        let mut text = String::new(alloc);
        for doc in start..end {
            put_object(alloc, columns.columns(), doc, &mut text)?;
            text.push('\n')?;
        }
        return print_text(rt, text.as_str());
    }
    let found = match chosen(alloc, &columns, matches.get_strs("columns"))? {
        Ok(found) => found,
        Err(name) => return Err(no_column(alloc, name)),
    };
    let docs: Vec<DocId> = (start..end).collect(alloc)?;
    let table = rows_table(alloc, &found, &docs)?;
    print_text(rt, table.text(alloc, most)?.as_str())
}

// Draws the columns of a name.
fn draw(
    rt: &HostRuntime,
    reader: &mut Reader,
    path: &str,
    name: &str,
    as_json: bool,
    most: Option<usize>,
) -> Result<(), Ending> {
    let alloc = rt.alloc();
    let nested = path_of(alloc, name)?;
    let mut is_there = false;
    for (found, handle) in reader.list_columns(alloc)? {
        if found.as_str() != name && found.as_str() != nested.as_str() {
            continue;
        }
        is_there = true;
        let column = match handle.open(alloc, reader) {
            Ok(column) => column,
            Err(error) => return Err(of_file(alloc, path, error)),
        };
        let drawn = drawing_of(alloc, &column)?;
        let text = if as_json {
            drawn.json(alloc)?
        } else {
            drawn.text(alloc, name, most)?
        };
        print_text(rt, text.as_str())?;
    }
    if !is_there {
        return Err(no_column(alloc, name));
    }
    Ok(())
}
