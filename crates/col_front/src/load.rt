//! Loads documents into a file.

use crate::ending::{BAD_LINE, BAD_WORDS, Ending, ended_with};
use crate::forms::forms_of;
use crate::inputs::Inputs;
use crate::load_csv::load_csv;
use crate::refusals::{refusal_text, value_text};
use clap::ArgMatches;
use col_common::{FileSink, Sink};
use col_documents::{Form, Refusal};
use col_load::LoadError;
use std::alloc::Global;
use std::fs;

/// Does what `load` is told.
pub fn load(rt: &HostRuntime, matches: &ArgMatches<'_>) -> Result<(), Ending> {
    let forms = told_forms(rt.alloc(), matches)?;
    load_by(rt, matches, &forms)
}

fn told_forms(alloc: Global, matches: &ArgMatches<'_>) -> Result<Vec<(String, Form)>, Ending> {
    match forms_of(alloc, matches)? {
        Ok(forms) => Ok(forms),
        Err(word) => {
            let text = format!(in alloc; "`{word}` is no name with =N behind it, N from 0 to 255")?;
            Err(ended_with(BAD_WORDS, text))
        }
    }
}

fn load_by(
    rt: &HostRuntime,
    matches: &ArgMatches<'_>,
    forms: &[(String, Form)],
) -> Result<(), Ending> {
    let Some(path) = matches.get_str("OUT") else {
        return Ok(());
    };
    let path = String::from_str(rt.alloc(), path)?;
    let mut output = FileSink::new(rt.clone()?, path);
    load_to(rt, matches, forms, &mut output)
}

fn load_to<K: Sink>(
    rt: &HostRuntime,
    matches: &ArgMatches<'_>,
    forms: &[(String, Form)],
    output: &mut K,
) -> Result<(), Ending> {
    let skips = matches.get_flag("skip-bad");
    let inputs = matches.get_strs("IN").unwrap_or(&["-"]);
    let counts = if is_csv(matches, inputs) {
        load_csv(rt, forms, skips, inputs, output)?
    } else {
        load_lines(rt, forms, skips, inputs, output)?
    };
    if skips {
        report_skipped(rt, counts);
    }
    Ok(())
}

// Whether inputs are CSV: as is told, or else as the end of the first one's name says.
fn is_csv(matches: &ArgMatches<'_>, inputs: &[&str]) -> bool {
    match (matches.get_str("format"), inputs.first()) {
        (Some(format), _) => format == "csv",
        (None, Some(input)) => input.ends_with(".csv"),
        (None, None) => false,
    }
}

// Writes a file of the documents of lines, and tells how many lines there are and how many of them
// were skipped.
fn load_lines<K: Sink>(
    rt: &HostRuntime,
    forms: &[(String, Form)],
    skips: bool,
    inputs: &[&str],
    output: &mut K,
) -> Result<(u64, u64), Ending> {
    let mut inputs = Inputs::new(rt, inputs);
    load_from(rt, forms, skips, &mut inputs, output)
}

fn load_from<K: Sink>(
    rt: &HostRuntime,
    forms: &[(String, Form)],
    skips: bool,
    inputs: &mut Inputs<'_>,
    output: &mut K,
) -> Result<(u64, u64), Ending> {
    let loaded = col_load::load(rt.alloc(), forms, skips, inputs, output);
    inputs.end();
    match loaded {
        Ok(counts) => Ok((inputs.lines(), counts.skipped())),
        Err(error) => Err(ending_of(rt, forms, inputs, error)),
    }
}

fn report_skipped(rt: &HostRuntime, counts: (u64, u64)) {
    let _ = eprintln!(rt;
        "columnar: {} of {} lines are no documents, and were skipped",
        counts.1, counts.0
    );
}

fn ending_of(
    rt: &HostRuntime,
    forms: &[(String, Form)],
    inputs: &mut Inputs<'_>,
    error: LoadError,
) -> Ending {
    if let LoadError::BadLine { number, refusal } = &error
        && let Some((name, number)) = inputs.place_of(*number)
    {
        return bad_line(rt, forms, name, number, refusal);
    }
    match inputs.take_unread() {
        Some(ending) => ending,
        None => Ending::from(error),
    }
}

fn bad_line(
    rt: &HostRuntime,
    forms: &[(String, Form)],
    input: &str,
    number: u64,
    refusal: &Refusal,
) -> Ending {
    let alloc = rt.alloc();
    let value = match line_of(rt, input, number) {
        Some(line) => value_text(alloc, &line, refusal.path.as_str()),
        None => None,
    };
    let value = value.as_ref().map(|text| text.as_str());
    let name = if input == "-" {
        "standard input"
    } else {
        input
    };
    let text = match refusal_text(alloc, forms, refusal, value) {
        Ok(text) => format!(in alloc; "{name}:{number}: {}", text.as_str()).ok(),
        Err(_) => None,
    };
    Ending {
        status: BAD_LINE,
        text,
    }
}

// The line with a number of a file, where it can be read once more.
fn line_of(rt: &HostRuntime, path: &str, number: u64) -> Option<Vec<u8>> {
    let text = fs::read(rt, path).ok()?;
    let place = usize::try_from(number.saturating_sub(1)).ok()?;
    let line = text.split(|byte| *byte == b'\n').nth(place)?;
    Vec::from_slice(rt.alloc(), line).ok()
}
