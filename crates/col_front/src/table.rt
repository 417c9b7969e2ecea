//! Aligned tables.

use std::alloc::{AllocError, Global};
use unicode_width::{UnicodeWidthChar, UnicodeWidthStr};

// A heading or a text that is shortened has at least so many columns.
const LEAST_WIDTH: usize = 6;

/// Rows of texts below headings.
#[derive(Drop)]
pub struct Table {
    pub headings: Vec<Heading>,
    pub rows: Vec<Vec<String>>,
}

/// What stands above a column of texts, and whether these end at one place.
#[derive(Drop)]
pub struct Heading {
    pub name: String,
    pub is_right: bool,
}

impl Table {
    /// Without rows.
    pub fn new(alloc: Global) -> Table {
        Table {
            headings: Vec::new(alloc),
            rows: Vec::new(alloc),
        }
    }

    pub fn push_heading(&mut self, name: String, is_right: bool) -> Result<(), AllocError> {
        self.headings.push(Heading { name, is_right })?;
        Ok(())
    }

    /// The lines, each at most so wide, where that can be.
    pub fn text(&self, alloc: Global, most: Option<usize>) -> Result<String, AllocError> {
        let mut widths = self.widths(alloc)?;
        if let Some(most) = most {
            narrow(&mut widths, most);
        }
        let mut text = String::new(alloc);
        let mut line = String::new(alloc);
        for (heading, width) in self.headings.iter().zip(widths.iter()) {
            put_cell(&mut line, heading.name.as_str(), *width, heading.is_right)?;
        }
        put_line(&mut text, &mut line)?;
        for row in &self.rows {
            for ((cell, width), heading) in row
                .iter()
                .zip(widths.iter())
                .zip(self.headings.iter())
            {
                put_cell(&mut line, cell.as_str(), *width, heading.is_right)?;
            }
            put_line(&mut text, &mut line)?;
        }
        Ok(text)
    }

    // How wide the texts of each column are.
    fn widths(&self, alloc: Global) -> Result<Vec<usize>, AllocError> {
        let mut widths = Vec::new(alloc);
        for heading in &self.headings {
            widths.push(heading.name.as_str().width())?;
        }
        for row in &self.rows {
            for (cell, width) in row.iter().zip(widths.iter_mut()) {
                *width = (*width).max(cell.as_str().width());
            }
        }
        Ok(widths)
    }
}

// Takes from the widest column, again and again, until all fit, or none can be narrower.
fn narrow(widths: &mut [usize], most: usize) {
    for _ in 0..widths.len().saturating_mul(2) {
        let total = total_of(widths);
        if total <= most {
            return;
        }
        let (widest, next) = two_widest(widths);
        let wanted = widest
            .saturating_sub(total - most)
            .max(next)
            .max(LEAST_WIDTH);
        if wanted >= widest {
            // Several are as wide: each of them gives something.
            let wanted = widest.saturating_sub(1).max(LEAST_WIDTH);
            for width in widths.iter_mut() {
                *width = (*width).min(wanted.max(LEAST_WIDTH));
            }
        } else {
            for width in widths.iter_mut() {
                *width = (*width).min(wanted);
            }
        }
    }
}

// How wide a line is, with two spaces between columns.
fn total_of(widths: &[usize]) -> usize {
    let mut total = 0usize;
    for width in widths {
        total = total.saturating_add(*width).saturating_add(2);
    }
    total.saturating_sub(2)
}

// The greatest width, and the greatest one below it.
fn two_widest(widths: &[usize]) -> (usize, usize) {
    let mut widest = 0;
    for width in widths {
        widest = widest.max(*width);
    }
    let mut next = 0;
    for width in widths {
        if *width < widest {
            next = next.max(*width);
        }
    }
    (widest, next)
}

// Puts a text into a place of a width, shortened where it is wider.
fn put_cell(line: &mut String, text: &str, width: usize, is_right: bool) -> Result<(), AllocError> {
    if !line.is_empty() {
        line.push_str("  ")?;
    }
    let taken = text.width();
    if taken > width {
        return put_front(line, text, width);
    }
    if is_right {
        put_spaces(line, width - taken)?;
    }
    line.push_str(text)?;
    if !is_right {
        put_spaces(line, width - taken)?;
    }
    Ok(())
}

// Puts what fits of a text, and a sign that there is more.
fn put_front(line: &mut String, text: &str, width: usize) -> Result<(), AllocError> {
    let mut taken = 1usize;
    for letter in text.chars() {
        let more = letter.width().unwrap_or(0);
        if taken.saturating_add(more) > width {
            break;
        }
        taken = taken.saturating_add(more);
        line.push(letter)?;
    }
    line.push('…')?;
    put_spaces(line, width.saturating_sub(taken))
}

fn put_spaces(line: &mut String, count: usize) -> Result<(), AllocError> {
    for _ in 0..count {
        line.push(' ')?;
    }
    Ok(())
}

// Puts a line without the spaces at its end, and makes it empty.
fn put_line(text: &mut String, line: &mut String) -> Result<(), AllocError> {
    text.push_str(line.as_str().trim_end_matches(' '))?;
    text.push('\n')?;
    line.clear();
    Ok(())
}

/// A text in which nothing moves the cursor: control characters as they are escaped in Rust.
pub fn plain(alloc: Global, text: &str) -> Result<String, AllocError> {
    let mut shown = String::with_capacity(alloc, text.len())?;
    for letter in text.chars() {
        match letter {
            '\n' => shown.push_str("\\n")?,
            '\t' => shown.push_str("\\t")?,
            '\r' => shown.push_str("\\r")?,
            _ if letter.is_control() => {
                shown.push_str(format!(in alloc; "\\u{{{:x}}}", u32::from(letter))?.as_str())?;
            }
            _ => shown.push(letter)?,
        }
    }
    Ok(shown)
}
