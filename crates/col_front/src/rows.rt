//! Rows of files, as aligned tables and as lines of JSON.

use crate::ask::quoted;
use crate::forms::{name_of, path_of};
use crate::shown::{Shown, values_of_doc};
use crate::table::{Table, plain};
use col_common::{ColumnarError, DocId, JSON_PATH_SEGMENT_SEP};
use col_opened::{OpenColumn, OpenColumns};
use col_types::ColumnType;
use std::alloc::{AllocError, Global};

/// The rows of documents below the names of the columns, beside their numbers.
pub fn rows_table(
    alloc: Global,
    columns: &[&OpenColumn],
    docs: &[DocId],
) -> Result<Table, ColumnarError> {
    let mut table = Table::new(alloc);
    table.push_heading(String::from_str(alloc, "row")?, true)?;
    for open in columns {
        let name = name_of(alloc, open.name.as_str())?;
        table.push_heading(
            plain(alloc, name.as_str())?,
            is_right(open.column.column_type()),
        )?;
    }
    for doc in docs {
        let mut row = Vec::new(alloc);
        row.push(doc.to_string(alloc)?)?;
        for open in columns {
            row.push(cell_text(alloc, open, *doc)?)?;
        }
        table.rows.push(row)?;
    }
    Ok(table)
}

// Whether the values of a type end at one place.
fn is_right(column_type: ColumnType) -> bool {
    matches!(column_type, ColumnType::I64 | ColumnType::U64)
}

// The values of a document, with commas between them.
fn cell_text(alloc: Global, open: &OpenColumn, doc: DocId) -> Result<String, ColumnarError> {
    let mut text = String::new(alloc);
    for value in values_of_doc(alloc, &open.column, doc)? {
        if !text.is_empty() {
            text.push_str(", ")?;
        }
        text.push_str(plain(alloc, value.text(alloc)?.as_str())?.as_str())?;
    }
    Ok(text)
}

/// The columns whose names are told, in that order, or all; the name that none has is an error.
pub fn chosen<'a, 'b>(
    alloc: Global,
    columns: &'a OpenColumns,
    names: Option<&[&'b str]>,
) -> Result<Result<Vec<&'a OpenColumn>, &'b str>, AllocError> {
    let mut found = Vec::new(alloc);
    let Some(names) = names else {
        for open in columns.columns() {
            found.push(open)?;
        }
        return Ok(Ok(found));
    };
    for name in names {
        let path = path_of(alloc, name)?;
        let before = found.len();
        for open in columns.columns() {
            if open.name.as_str() == *name || open.name.as_str() == path.as_str() {
                found.push(open)?;
            }
        }
        if found.len() == before {
            return Ok(Err(*name));
        }
    }
    Ok(Ok(found))
}

/// Whether two columns are one member of a document: those of one name and of several types.
pub fn has_same_name(open: &OpenColumn, other: &OpenColumn) -> bool {
    open.name.as_str() == other.name.as_str()
}

/// The name of the columns of a member.
pub fn name_of_member(member: &[OpenColumn]) -> &str {
    match member.first() {
        Some(open) => open.name.as_str(),
        None => "",
    }
}

/// The values of a document in the columns of a member.
pub fn values_of_member(
    alloc: Global,
    member: &[OpenColumn],
    doc: DocId,
) -> Result<Vec<Shown>, ColumnarError> {
    let mut found = Vec::new(alloc);
    for open in member {
        for value in values_of_doc(alloc, &open.column, doc)? {
            found.push(value)?;
        }
    }
    Ok(found)
}

/// A document as an object in JSON: each value below its path, several as an array.
pub fn put_object(
    alloc: Global,
    columns: &[OpenColumn],
    doc: DocId,
    text: &mut String,
) -> Result<(), ColumnarError> {
    // The names of the objects that are open, with a separator behind each.
    let mut front = String::new(alloc);
    // Whether a member stands in the innermost object that is open.
    let mut is_behind = false;
    text.push('{')?;
    for member in columns.chunk_by(has_same_name) {
        let values = values_of_member(alloc, member, doc)?;
        if !values.is_empty() {
            is_behind = put_path(alloc, name_of_member(member), &mut front, is_behind, text)?;
            put_values(alloc, &values, text)?;
        }
    }
    close_objects(count_of(front.as_str()), text)?;
    text.push('}')?;
    Ok(())
}

// How many objects are open.
fn count_of(front: &str) -> usize {
    front
        .as_bytes()
        .iter()
        .filter(|byte| **byte == JSON_PATH_SEGMENT_SEP)
        .count()
}

fn close_objects(count: usize, text: &mut String) -> Result<(), AllocError> {
    for _ in 0..count {
        text.push('}')?;
    }
    Ok(())
}

// Closes and opens objects until the last name of a path can be put, and puts it.
fn put_path(
    alloc: Global,
    path: &str,
    front: &mut String,
    is_behind: bool,
    text: &mut String,
) -> Result<bool, AllocError> {
    let (wanted, last) = match path.rsplit_once(char::from(JSON_PATH_SEGMENT_SEP)) {
        Some((wanted, last)) => (wanted, last),
        None => ("", path),
    };
    let mut is_behind = is_behind;
    let shared = shared_objects(front.as_str(), wanted);
    let open = count_of(front.as_str());
    close_objects(open - shared.min(open), text)?;
    if open > shared {
        is_behind = true;
    }
    front.clear();
    for (depth, name) in wanted.split(char::from(JSON_PATH_SEGMENT_SEP)).enumerate() {
        if wanted.is_empty() {
            break;
        }
        front.push_str(name)?;
        front.push(char::from(JSON_PATH_SEGMENT_SEP))?;
        if depth >= shared {
            put_name(alloc, name, is_behind, text)?;
            text.push('{')?;
            is_behind = false;
        }
    }
    put_name(alloc, last, is_behind, text)?;
    Ok(true)
}

// How many of the objects that are open are also those of a path.
fn shared_objects(front: &str, wanted: &str) -> usize {
    if wanted.is_empty() {
        return 0;
    }
    let separator = char::from(JSON_PATH_SEGMENT_SEP);
    front
        .split(separator)
        .zip(wanted.split(separator))
        .take_while(|pair| pair.0 == pair.1)
        .count()
        .min(count_of(front))
}

fn put_name(
    alloc: Global,
    name: &str,
    is_behind: bool,
    text: &mut String,
) -> Result<(), AllocError> {
    if is_behind {
        text.push(',')?;
    }
    text.push_str(quoted(alloc, name)?.as_str())?;
    text.push(':')?;
    Ok(())
}

fn put_values(alloc: Global, values: &[Shown], text: &mut String) -> Result<(), AllocError> {
    if let [value] = values {
        return put_value(alloc, value, text);
    }
    text.push('[')?;
    let mut is_behind = false;
    for value in values {
        if is_behind {
            text.push(',')?;
        }
        put_value(alloc, value, text)?;
        is_behind = true;
    }
    text.push(']')?;
    Ok(())
}

fn put_value(alloc: Global, value: &Shown, text: &mut String) -> Result<(), AllocError> {
    let spelled = value.text(alloc)?;
    if value.is_bare() {
        text.push_str(spelled.as_str())?;
    } else {
        text.push_str(quoted(alloc, spelled.as_str())?.as_str())?;
    }
    Ok(())
}
