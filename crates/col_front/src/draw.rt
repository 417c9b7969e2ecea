//! Drawings of columns.

use crate::ask::quoted;
use crate::asked::facet_shown;
use crate::shown::Shown;
use crate::table::plain;
use col_dynamic::DynamicColumn;
use col_facet::{facet_all, top_facets};
use col_look::{Bar, bar_len, bars};
use col_types::ColumnType;
use std::alloc::{AllocError, Global};
use unicode_width::UnicodeWidthStr;

// How many bars a drawing has at most.
const MOST_BARS: usize = 20;
// How wide a line is where no width is told.
const WIDTH: usize = 80;
// A label of a term is cut where it is wider.
const LABEL: usize = 30;

/// Bars with their labels and counts.
#[derive(Drop)]
pub struct Drawing {
    column_type: ColumnType,
    num_values: u32,
    bars: Vec<Labelled>,
}

/// A bar.
#[derive(Drop)]
pub struct Labelled {
    pub label: String,
    /// What stands for it in JSON.
    pub json: String,
    pub count: u64,
}

/// The drawing of a column: how often its values fall into ranges of one width, or its most
/// frequent terms, addresses or flags.
pub fn drawing_of(alloc: Global, column: &DynamicColumn) -> Result<Drawing, AllocError> {
    let found = match column.column_type() {
        ColumnType::I64 | ColumnType::U64 | ColumnType::DateTime => ranges_of(alloc, column)?,
        _ => most_frequent(alloc, column)?,
    };
    Ok(Drawing {
        column_type: column.column_type(),
        num_values: column.num_values(),
        bars: found,
    })
}

fn ranges_of(alloc: Global, column: &DynamicColumn) -> Result<Vec<Labelled>, AllocError> {
    let mut found = Vec::new(alloc);
    for bar in &bars(alloc, column, MOST_BARS)? {
        found.push(labelled_range(alloc, column.column_type(), bar)?)?;
    }
    Ok(found)
}

fn labelled_range(
    alloc: Global,
    column_type: ColumnType,
    bar: &Bar,
) -> Result<Labelled, AllocError> {
    let first = end_text(alloc, column_type, bar.first)?;
    let last = end_text(alloc, column_type, bar.last)?;
    let json = if let ColumnType::DateTime = column_type {
        format!(in alloc;
            "\"first\":\"{}\",\"last\":\"{}\"",
            first.as_str(),
            last.as_str()
        )?
    } else {
        format!(in alloc; "\"first\":{},\"last\":{}", first.as_str(), last.as_str())?
    };
    let label = if bar.first == bar.last {
        first
    } else if let ColumnType::DateTime = column_type {
        start_text(first.as_str(), bar.last.saturating_sub(bar.first), alloc)?
    } else {
        format!(in alloc; "{} .. {}", first.as_str(), last.as_str())?
    };
    Ok(Labelled {
        label,
        json,
        count: bar.count,
    })
}

// When a range of so many nanoseconds starts, without parts of seconds where it is long.
fn start_text(first: &str, nanos: i128, alloc: Global) -> Result<String, AllocError> {
    match first.split_once('.') {
        Some((seconds, _)) if nanos > 1_000_000_000 => format!(in alloc; "{seconds}Z"),
        _ => String::from_str(alloc, first),
    }
}

fn end_text(alloc: Global, column_type: ColumnType, number: i128) -> Result<String, AllocError> {
    if let ColumnType::DateTime = column_type
        && let Ok(nanos) = i64::try_from(number)
    {
        return Shown::Time(nanos).text(alloc);
    }
    number.to_string(alloc)
}

fn most_frequent(alloc: Global, column: &DynamicColumn) -> Result<Vec<Labelled>, AllocError> {
    let mut found = Vec::new(alloc);
    let facets = facet_all(alloc, column)?;
    for counted in &top_facets(alloc, &facets, MOST_BARS)? {
        let shown = facet_shown(alloc, column.column_type(), &counted.cell)?;
        let text = shown.text(alloc)?;
        let json = if shown.is_bare() {
            format!(in alloc; "\"value\":{}", text.as_str())?
        } else {
            format!(in alloc; "\"value\":{}", quoted(alloc, text.as_str())?.as_str())?
        };
        found.push(Labelled {
            label: plain(alloc, text.as_str())?,
            json,
            count: counted.count,
        })?;
    }
    Ok(found)
}

impl Drawing {
    /// The bars, in order.
    pub fn bars(&self) -> &[Labelled] {
        self.bars.as_slice()
    }

    /// The bars, each behind its label and its count.
    pub fn text(
        &self,
        alloc: Global,
        name: &str,
        most: Option<usize>,
    ) -> Result<String, AllocError> {
        let mut text = format!(in alloc;
            "{}, {}, values: {}\n",
            plain(alloc, name)?.as_str(),
            self.column_type.word(),
            self.num_values
        )?;
        let (mut wide, mut digits, mut greatest) = (0, 0, 0);
        for bar in &self.bars {
            wide = bar.label.as_str().width().min(LABEL.max(wide)).max(wide);
            digits = bar.count.to_string(alloc)?.len().max(digits);
            greatest = bar.count.max(greatest);
        }
        if let ColumnType::I64 | ColumnType::U64 | ColumnType::DateTime = self.column_type {
            for bar in &self.bars {
                wide = bar.label.as_str().width().max(wide);
            }
        }
        let room = most
            .unwrap_or(WIDTH)
            .saturating_sub(wide.saturating_add(digits).saturating_add(6))
            .max(4);
        for bar in &self.bars {
            put_bar(alloc, bar, wide, digits, greatest, room, &mut text)?;
        }
        Ok(text)
    }

    /// The same as lines of JSON.
    pub fn json(&self, alloc: Global) -> Result<String, AllocError> {
        let mut text = String::new(alloc);
        for bar in &self.bars {
            let line = format!(in alloc; "{{{},\"count\":{}}}\n", bar.json.as_str(), bar.count)?;
            text.push_str(line.as_str())?;
        }
        Ok(text)
    }
}

fn put_bar(
    alloc: Global,
    bar: &Labelled,
    wide: usize,
    digits: usize,
    greatest: u64,
    room: usize,
    text: &mut String,
) -> Result<(), AllocError> {
    text.push_str("  ")?;
    let mut taken = 0usize;
    for letter in bar.label.as_str().chars() {
        let more = unicode_width::UnicodeWidthChar::width(letter).unwrap_or(0);
        if taken.saturating_add(more) > wide {
            break;
        }
        taken = taken.saturating_add(more);
        text.push(letter)?;
    }
    for _ in taken..wide {
        text.push(' ')?;
    }
    let count = bar.count.to_string(alloc)?;
    text.push_str("  ")?;
    for _ in count.len()..digits {
        text.push(' ')?;
    }
    text.push_str(count.as_str())?;
    let width = u32::try_from(room).unwrap_or(u32::MAX).min(1000);
    let length = bar_len(bar.count, greatest, width);
    if length > 0 {
        text.push_str("  ")?;
    }
    for _ in 0..length {
        text.push('█')?;
    }
    text.push('\n')?;
    Ok(())
}
