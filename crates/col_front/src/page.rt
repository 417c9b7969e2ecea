//! A page for a browser, without scripts.

use crate::draw::Drawing;
use crate::look::{Told, cells_of, headings};
use col_look::bar_len;
use std::alloc::{AllocError, Global};

// How long the longest bar is drawn, how high each is, and where they begin, in pixels.
const LENGTH: u32 = 400;

const HEIGHT: u32 = 18;

const LEFT: u32 = 260;

// How many letters of a label there is room for.
const LETTERS: usize = 32;

/// What stands in front of all files.
pub const FRONT: &str = "<!DOCTYPE html>\n<html lang=\"en\">\n<head>\n<meta charset=\"utf-8\">\n\
    <title>Columns</title>\n<style>\n\
    body { font: 14px/1.4 sans-serif; margin: 2em; color: #222 }\n\
    table { border-collapse: collapse; margin: 1em 0 }\n\
    th, td { border-bottom: 1px solid #ddd; padding: 3px 10px; text-align: left }\n\
    td.right, th.right { text-align: right }\n\
    svg text { font: 12px monospace }\nsvg rect { fill: #4878a8 }\n\
    </style>\n</head>\n<body>\n";

/// What stands behind all files.
pub const BEHIND: &str = "</body>\n</html>\n";

/// The heading of a file, and the table of its columns.
pub fn put_table(
    alloc: Global,
    path: &str,
    summary: &str,
    told: &[Told],
    page: &mut String,
) -> Result<(), AllocError> {
    page.push_str("<h1>")?;
    put_text(path, page)?;
    page.push_str("</h1>\n<p>")?;
    put_text(summary, page)?;
    page.push_str("</p>\n<table>\n<tr>")?;
    for (name, is_right) in headings() {
        put_cell("th", name, is_right, page)?;
    }
    page.push_str("</tr>\n")?;
    for one in told {
        page.push_str("<tr>")?;
        for (cell, (_, is_right)) in cells_of(alloc, one)?.iter().zip(headings()) {
            put_cell("td", cell.as_str(), is_right, page)?;
        }
        page.push_str("</tr>\n")?;
    }
    page.push_str("</table>\n")
}

fn put_cell(tag: &str, text: &str, is_right: bool, page: &mut String) -> Result<(), AllocError> {
    page.push('<')?;
    page.push_str(tag)?;
    page.push_str(if is_right { " class=\"right\">" } else { ">" })?;
    put_text(text, page)?;
    page.push_str("</")?;
    page.push_str(tag)?;
    page.push('>')?;
    Ok(())
}

/// The drawing of a column below its name.
pub fn put_drawing(
    alloc: Global,
    name: &str,
    drawing: &Drawing,
    page: &mut String,
) -> Result<(), AllocError> {
    page.push_str("<h2>")?;
    put_text(name, page)?;
    page.push_str("</h2>\n")?;
    let mut greatest = 0;
    for bar in drawing.bars() {
        greatest = bar.count.max(greatest);
    }
    let height = HEIGHT.saturating_mul(u32::try_from(drawing.bars().len()).unwrap_or(u32::MAX));
    let wide = LEFT + LENGTH + 100;
    page.push_str(format!(in alloc;
        "<svg xmlns=\"http://www.w3.org/2000/svg\" width=\"{wide}\" height=\"{height}\">\n"
    )?.as_str())?;
    let mut top = 0u32;
    for bar in drawing.bars() {
        let length = bar_len(bar.count, greatest, LENGTH);
        put_bar(alloc, bar.label.as_str(), bar.count, length, top, page)?;
        top = top.saturating_add(HEIGHT);
    }
    page.push_str("</svg>\n")
}

fn put_bar(
    alloc: Global,
    label: &str,
    count: u64,
    length: u32,
    top: u32,
    page: &mut String,
) -> Result<(), AllocError> {
    let line = top.saturating_add(13);
    page.push_str(format!(in alloc;
        "<text x=\"{}\" y=\"{line}\" text-anchor=\"end\">",
        LEFT - 10
    )?
    .as_str())?;
    put_front(label, page)?;
    page.push_str(format!(in alloc;
        "</text><rect x=\"{LEFT}\" y=\"{}\" width=\"{length}\" height=\"{}\"/>",
        top.saturating_add(2),
        HEIGHT - 4
    )?
    .as_str())?;
    page.push_str(format!(in alloc;
        "<text x=\"{}\" y=\"{line}\">{count}</text>\n",
        LEFT.saturating_add(length).saturating_add(6)
    )?
    .as_str())
}

// The first letters of a label, as many as there is room for.
fn put_front(label: &str, page: &mut String) -> Result<(), AllocError> {
    for (place, letter) in label.chars().enumerate() {
        if place == LETTERS {
            return page.push_str("…");
        }
        put_letter(letter, page)?;
    }
    Ok(())
}

// A text, in which nothing is read as a tag.
fn put_text(text: &str, page: &mut String) -> Result<(), AllocError> {
    for letter in text.chars() {
        put_letter(letter, page)?;
    }
    Ok(())
}

fn put_letter(letter: char, page: &mut String) -> Result<(), AllocError> {
    match letter {
        '<' => page.push_str("&lt;"),
        '>' => page.push_str("&gt;"),
        '&' => page.push_str("&amp;"),
        '"' => page.push_str("&quot;"),
        _ => {
            page.push(letter)?;
            Ok(())
        }
    }
}
