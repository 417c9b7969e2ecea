//! Rows that a filter takes.

use crate::asked::Reader;
use crate::ends::{addresses_of, limits_of, number_text, numbers_of, range_of, shape_of};
use crate::filter::{Condition, FilterError, Item, Test, items_of, joined};
use crate::forms::path_of;
use crate::tokens::{Sign, tokens_of};
use col_common::ColumnarError;
use col_dynamic::DynamicColumn;
use col_file::DynamicColumnHandle;
use col_print::{TextInMemory, put_quoted};
use col_questions::{Query, QueryError, parse_query};
use col_text::BytesColumn;
use col_types::ColumnType;
use serde_json::Value;
use std::alloc::{AllocError, Global};

/// A column that a name may mean.
#[derive(Drop)]
pub struct Named {
    pub path: String,
    pub column_type: ColumnType,
    // The greatest term of a text or of bytes.
    pub greatest: Option<Vec<u8>>,
}

/// The items of a filter; none of one without words.
pub fn filter_items(alloc: Global, words: &str) -> Result<Vec<Item>, FilterError> {
    let Some(tokens) = tokens_of(alloc, words)? else {
        return Err(FilterError::Shape(String::from_str(alloc, "a quote isn't closed")?));
    };
    if tokens.is_empty() {
        return Ok(Vec::new(alloc));
    }
    items_of(alloc, tokens)
}

/// The query that the items of a filter mean, over the columns of a file.
pub fn query_of(alloc: Global, columns: &[Named], items: &[Item]) -> Result<Query, FilterError> {
    let text = joined(
        alloc,
        items,
        |condition| condition_text(alloc, columns, condition),
    )?;
    parsed(alloc, text.as_str())
}

fn parsed(alloc: Global, text: &str) -> Result<Query, FilterError> {
    let Ok(value) = Value::from_str(alloc, text) else {
        return Err(FilterError::OutOfMemory);
    };
    match parse_query(alloc, &value) {
        Ok(query) => Ok(query),
        Err(QueryError::Memory) => Err(FilterError::OutOfMemory),
        Err(QueryError::Shape) => {
            Err(FilterError::Shape(format!(in alloc; "{text} is no query")?))
        }
    }
}

// The query of a condition, over all columns that its name means.
fn condition_text(
    alloc: Global,
    columns: &[Named],
    condition: &Condition,
) -> Result<String, FilterError> {
    let path = path_of(alloc, condition.name.as_str())?;
    let mut found = String::new(alloc);
    let mut last = None;
    for named in columns {
        let is_meant = named.path.as_str() == condition.name.as_str()
            || named.path.as_str() == path.as_str();
        if is_meant {
            last = Some(named.column_type);
            if let Some(query) = column_text(alloc, named, &condition.test)? {
                if !found.is_empty() {
                    found.push(',')?;
                }
                found.push_str(query.as_str())?;
            }
        }
    }
    if found.is_empty() {
        return Err(not_taken(alloc, condition, last)?);
    }
    Ok(format!(in alloc; "[\"or\",[{}]]", found.as_str())?)
}

// Why no column takes a condition.
fn not_taken(
    alloc: Global,
    condition: &Condition,
    last: Option<ColumnType>,
) -> Result<FilterError, AllocError> {
    let name = condition.name.as_str();
    let text = match last {
        None => format!(in alloc; "there is no column `{name}`")?,
        Some(ColumnType::Str | ColumnType::Bytes) if is_below(&condition.test) => {
            format!(in alloc; "of `{name}`, which has terms, `<` can't be asked: `<=` can")?
        }
        Some(column_type) => format!(in alloc;
            "`{name}` is {}, and wants {}",
            column_type.word(),
            shape_of(column_type)
        )?,
    };
    Ok(FilterError::Shape(text))
}

fn is_below(test: &Test) -> bool {
    matches!(test, Test::Sign(Sign::Below, _))
}

// The query of a test of one column; none where the values aren't of its type.
fn column_text(alloc: Global, named: &Named, test: &Test) -> Result<Option<String>, AllocError> {
    let ends = match test {
        Test::Has => return Ok(Some(has_text(alloc, named)?)),
        Test::Sign(sign, value) => signed_ends(alloc, named, *sign, value.as_str())?,
        Test::Between(low, high) => ends_between(
            alloc,
            named,
            low.as_ref().map(|text| text.as_str()),
            high.as_ref().map(|text| text.as_str()),
        )?,
    };
    let Some((low, high)) = ends else {
        return Ok(None);
    };
    let range = range_text(alloc, named, low.as_str(), high.as_str())?;
    if let Test::Sign(Sign::Other, _) = test {
        let has = has_text(alloc, named)?;
        return Ok(Some(format!(in alloc;
            "[\"and\",[{},[\"not\",{}]]]",
            has.as_str(),
            range.as_str()
        )?));
    }
    Ok(Some(range))
}

fn has_text(alloc: Global, named: &Named) -> Result<String, AllocError> {
    let name = quoted(alloc, named.path.as_str())?;
    format!(in alloc;
        "[\"has\",{},\"{}\"]",
        name.as_str(),
        named.column_type.word()
    )
}

fn range_text(alloc: Global, named: &Named, low: &str, high: &str) -> Result<String, AllocError> {
    let name = quoted(alloc, named.path.as_str())?;
    format!(in alloc;
        "[\"range\",{},\"{}\",{low},{high}]",
        name.as_str(),
        named.column_type.word()
    )
}

// A text in quotes, as JSON has it.
pub fn quoted(alloc: Global, text: &str) -> Result<String, AllocError> {
    let mut out = TextInMemory::new(alloc);
    put_quoted(&mut out, text);
    let bytes = out.into_bytes()?;
    match str::from_utf8(&bytes) {
        Ok(text) => String::from_str(alloc, text),
        Err(_) => Err(AllocError),
    }
}

type Ends = Option<(String, String)>;

// The ends of the range that a sign and a value mean.
fn signed_ends(alloc: Global, named: &Named, sign: Sign, value: &str) -> Result<Ends, AllocError> {
    match named.column_type {
        ColumnType::IpAddr => match addresses_of(value) {
            Some(found) => address_ends(alloc, signed_addresses(sign, found)),
            None => Ok(None),
        },
        ColumnType::Str | ColumnType::Bytes => term_ends(alloc, named, sign, value),
        column_type => match numbers_of(column_type, value) {
            Some(found) => number_ends(
                alloc,
                column_type,
                range_of(sign, found, limits_of(column_type)),
            ),
            None => Ok(None),
        },
    }
}

fn signed_addresses(sign: Sign, found: (u128, u128)) -> (u128, u128) {
    match sign {
        Sign::Equal | Sign::Other => found,
        Sign::Below => match found.0.checked_sub(1) {
            Some(high) => (0, high),
            None => (1, 0),
        },
        Sign::AtMost => (0, found.1),
        Sign::Above => match found.1.checked_add(1) {
            Some(low) => (low, u128::MAX),
            None => (1, 0),
        },
        Sign::AtLeast => (found.0, u128::MAX),
    }
}

fn address_ends(alloc: Global, ends: (u128, u128)) -> Result<Ends, AllocError> {
    let (low, high) = ends;
    Ok(Some((address_text(alloc, low)?, address_text(alloc, high)?)))
}

fn address_text(alloc: Global, bits: u128) -> Result<String, AllocError> {
    let digits = hex::encode(alloc, bits.to_be_bytes())?;
    format!(in alloc; "\"{}\"", digits.as_str())
}

// Ends within the limits of a type; a range that has nothing within them is one of nothing.
fn number_ends(
    alloc: Global,
    column_type: ColumnType,
    ends: (i128, i128),
) -> Result<Ends, AllocError> {
    let limits = limits_of(column_type);
    let (low, high) = if ends.0 > limits.1 || ends.1 < limits.0 || ends.0 > ends.1 {
        (limits.1, limits.0)
    } else {
        (ends.0.max(limits.0), ends.1.min(limits.1))
    };
    Ok(Some((
        number_text(alloc, column_type, low)?,
        number_text(alloc, column_type, high)?,
    )))
}

// The bytes of a term that a value writes.
fn term_of(
    alloc: Global,
    column_type: ColumnType,
    value: &str,
) -> Result<Option<Vec<u8>>, AllocError> {
    match column_type {
        ColumnType::Bytes => match hex::decode(alloc, value) {
            Ok(bytes) => Ok(Some(bytes)),
            Err(hex::FromHexError::OutOfMemory) => Err(AllocError),
            Err(_) => Ok(None),
        },
        _ => Ok(Some(Vec::from_slice(alloc, value.as_bytes())?)),
    }
}

fn term_text(alloc: Global, column_type: ColumnType, term: &[u8]) -> Result<String, AllocError> {
    if let ColumnType::Bytes = column_type {
        let digits = hex::encode(alloc, term)?;
        return format!(in alloc; "\"{}\"", digits.as_str());
    }
    match str::from_utf8(term) {
        Ok(text) => quoted(alloc, text),
        Err(_) => String::from_str(alloc, "\"\""),
    }
}

fn term_ends(alloc: Global, named: &Named, sign: Sign, value: &str) -> Result<Ends, AllocError> {
    let Some(mut term) = term_of(alloc, named.column_type, value)? else {
        return Ok(None);
    };
    match sign {
        Sign::Equal | Sign::Other => terms_between(alloc, named, &term, &term),
        Sign::AtMost => terms_between(alloc, named, &[], &term),
        // The least term above is the same with a zero byte.
        Sign::Above => {
            term.push(0)?;
            up_to_greatest(alloc, named, &term)
        }
        Sign::AtLeast => up_to_greatest(alloc, named, &term),
        Sign::Below => Ok(None),
    }
}

fn up_to_greatest(alloc: Global, named: &Named, low: &[u8]) -> Result<Ends, AllocError> {
    match &named.greatest {
        Some(greatest) if greatest.as_slice() >= low => terms_between(alloc, named, low, greatest),
        _ => Ok(Some((
            String::from_str(alloc, "\"01\"")?,
            String::from_str(alloc, "\"00\"")?,
        ))),
    }
}

fn terms_between(
    alloc: Global,
    named: &Named,
    low: &[u8],
    high: &[u8],
) -> Result<Ends, AllocError> {
    Ok(Some((
        term_text(alloc, named.column_type, low)?,
        term_text(alloc, named.column_type, high)?,
    )))
}

// The ends of a range, of which one may be open.
fn ends_between(
    alloc: Global,
    named: &Named,
    low: Option<&str>,
    high: Option<&str>,
) -> Result<Ends, AllocError> {
    match (low, high) {
        (Some(low), None) => signed_ends(alloc, named, Sign::AtLeast, low),
        (None, Some(high)) => signed_ends(alloc, named, Sign::AtMost, high),
        (Some(low), Some(high)) => both_ends(alloc, named, low, high),
        (None, None) => Ok(None),
    }
}

fn both_ends(alloc: Global, named: &Named, low: &str, high: &str) -> Result<Ends, AllocError> {
    match named.column_type {
        ColumnType::IpAddr => match (addresses_of(low), addresses_of(high)) {
            (Some(low), Some(high)) => address_ends(alloc, (low.0, high.1)),
            _ => Ok(None),
        },
        ColumnType::Str | ColumnType::Bytes => {
            let low = term_of(alloc, named.column_type, low)?;
            let high = term_of(alloc, named.column_type, high)?;
            match (low, high) {
                (Some(low), Some(high)) => terms_between(alloc, named, &low, &high),
                _ => Ok(None),
            }
        }
        column_type => match (numbers_of(column_type, low), numbers_of(column_type, high)) {
            (Some(low), Some(high)) => number_ends(alloc, column_type, (low.0, high.1)),
            _ => Ok(None),
        },
    }
}

/// The columns of a file, as filters name them. Of terms the greatest is looked for where a range
/// of a filter has no upper end.
pub fn named_columns(
    alloc: Global,
    reader: &mut Reader,
    items: &[Item],
) -> Result<Vec<Named>, ColumnarError> {
    let mut columns = Vec::new(alloc);
    for (name, handle) in reader.list_columns(alloc)? {
        columns.push(named_by(alloc, reader, items, name, &handle)?)?;
    }
    Ok(columns)
}

fn named_by(
    alloc: Global,
    reader: &mut Reader,
    items: &[Item],
    path: String,
    handle: &DynamicColumnHandle,
) -> Result<Named, ColumnarError> {
    let mut greatest = None;
    if is_open_above(alloc, items, path.as_str())? {
        greatest = greatest_of(alloc, reader, handle)?;
    }
    Ok(Named {
        path,
        column_type: handle.column_type(),
        greatest,
    })
}

// Whether a condition on a path has no upper end.
fn is_open_above(alloc: Global, items: &[Item], path: &str) -> Result<bool, AllocError> {
    for item in items {
        if let Item::Condition(condition) = item
            && has_no_upper_end(&condition.test)
            && (condition.name.as_str() == path
                || path_of(alloc, condition.name.as_str())?.as_str() == path)
        {
            return Ok(true);
        }
    }
    Ok(false)
}

fn has_no_upper_end(test: &Test) -> bool {
    matches!(
        test,
        Test::Sign(Sign::Above | Sign::AtLeast, _) | Test::Between(_, None)
    )
}

// The greatest term of a column, if it has terms.
fn greatest_of(
    alloc: Global,
    reader: &mut Reader,
    handle: &DynamicColumnHandle,
) -> Result<Option<Vec<u8>>, ColumnarError> {
    match handle.column_type() {
        ColumnType::Str | ColumnType::Bytes => greatest_opened(alloc, reader, handle),
        _ => Ok(None),
    }
}

fn greatest_opened(
    alloc: Global,
    reader: &mut Reader,
    handle: &DynamicColumnHandle,
) -> Result<Option<Vec<u8>>, ColumnarError> {
    let column = match handle.open(alloc, reader) {
        Ok(column) => column,
        Err(error) => return Err(error),
    };
    let greatest = greatest_in(alloc, &column)?;
    Ok(greatest)
}

fn greatest_in(alloc: Global, column: &DynamicColumn) -> Result<Option<Vec<u8>>, ColumnarError> {
    match column {
        DynamicColumn::Bytes(terms) => last_term(alloc, terms),
        DynamicColumn::Str(texts) => last_term(alloc, texts.bytes_column()),
        _ => Ok(None),
    }
}

fn last_term(alloc: Global, terms: &BytesColumn) -> Result<Option<Vec<u8>>, ColumnarError> {
    let count = terms.num_terms();
    if count == 0 {
        return Ok(None);
    }
    let mut term = Vec::new(alloc);
    terms.ord_to_bytes(count as u64 - 1, &mut term)?;
    Ok(Some(term))
}
