//! Loads CSV with a header line into a file.

use crate::ending::{BAD_LINE, BAD_WORDS, Ending, ended_with};
use crate::inputs::unread;
use crate::refusals::refusal_text;
use col_common::Sink;
use col_documents::{Form, Reason, Refusal};
use col_load::LoadError;
use csv::{ByteRecord, ReaderBuilder};
use std::alloc::{AllocError, Global};
use std::io::Read;
use std::{fs, io};

/// Writes a file of the documents of an input in CSV, and tells how many there are and how many of
/// them were skipped.
pub fn load_csv<K: Sink>(
    rt: &HostRuntime,
    forms: &[(String, Form)],
    skips: bool,
    inputs: &[&str],
    output: &mut K,
) -> Result<(u64, u64), Ending> {
    let alloc = rt.alloc();
    let [input] = inputs else {
        let text =
            "CSV is loaded from one input: load each into a file of its own, and merge these";
        return Err(ended_with(BAD_WORDS, String::from_str(alloc, text)?));
    };
    let text = text_of(rt, input)?;
    match col_load_csv::load_csv(alloc, forms, skips, &text, output) {
        Ok(counts) => Ok((counts.lines().saturating_sub(1), counts.skipped())),
        Err(LoadError::BadLine { number, refusal }) => {
            Err(bad_record(alloc, forms, input, &text, number, &refusal))
        }
        Err(error) => Err(Ending::from(error)),
    }
}

fn text_of(rt: &HostRuntime, input: &str) -> Result<Vec<u8>, Ending> {
    let read = if input == "-" {
        all_of(rt.alloc(), &mut rt.stdin())
    } else {
        fs::read(rt, input)
    };
    match read {
        Ok(text) => Ok(text),
        Err(error) => Err(unread(rt.alloc(), input, &error)),
    }
}

fn all_of<R: Read>(alloc: Global, input: &mut R) -> io::Result<Vec<u8>> {
    let mut text = Vec::new(alloc);
    input.read_to_end(&mut text)?;
    Ok(text)
}

// Names the line of a record, from 1 on with the header line, and its field.
fn bad_record(
    alloc: Global,
    forms: &[(String, Form)],
    input: &str,
    text: &[u8],
    number: u64,
    refusal: &Refusal,
) -> Ending {
    let name = if input == "-" {
        "standard input"
    } else {
        input
    };
    let header = record_at(alloc, text, 1);
    let record = record_at(alloc, text, number);
    let line = match record.as_ref().and_then(|record| record.position()) {
        Some(position) => position.line(),
        None => number,
    };
    let field = field_of(header.as_ref(), record.as_ref(), refusal.path.as_str());
    let text = match refusal_of_field(alloc, forms, refusal, field) {
        Ok(said) => format!(in alloc; "{name}:{line}: {}", said.as_str()).ok(),
        Err(_) => None,
    };
    Ending {
        status: BAD_LINE,
        text,
    }
}

fn refusal_of_field(
    alloc: Global,
    forms: &[(String, Form)],
    refusal: &Refusal,
    field: Option<&str>,
) -> Result<String, AllocError> {
    match (refusal.reason, field) {
        (Reason::Name, _) => {
            String::from_str(alloc, "a heading isn't UTF-8, or has a zero byte")
        }
        (Reason::Form, Some(field)) => {
            let quoted = format!(in alloc; "{field:?}")?;
            refusal_text(alloc, forms, refusal, Some(quoted.as_str()))
        }
        _ => refusal_text(alloc, forms, refusal, field),
    }
}

// The record with a number, from 1 on.
fn record_at(alloc: Global, text: &[u8], number: u64) -> Option<ByteRecord> {
    let mut reader = ReaderBuilder::new()
        .has_headers(false)
        .flexible(true)
        .from_reader(alloc, text);
    let mut record = ByteRecord::new(alloc);
    for _ in 0..number {
        let Ok(true) = reader.read_byte_record(&mut record) else {
            return None;
        };
    }
    Some(record)
}

// The first field under a name that isn't empty, as a text.
fn field_of<'a>(
    header: Option<&ByteRecord>,
    record: Option<&'a ByteRecord>,
    name: &str,
) -> Option<&'a str> {
    let (header, record) = (header?, record?);
    for (heading, field) in header.iter().zip(record.iter()) {
        if heading == name.as_bytes() && !field.is_empty() {
            return str::from_utf8(field).ok();
        }
    }
    None
}
