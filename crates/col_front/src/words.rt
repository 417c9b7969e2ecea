//! The words of the command line.

use clap::{Arg, ArgAction, Command};
use std::alloc::{AllocError, Global};

/// What the program may be told.
pub fn command<'a>(alloc: Global) -> Result<Command<'a>, AllocError> {
    Command::new(alloc, "columnar")
        .about("Loads ordinary data into a column file, and looks into it")
        .subcommand_required(true)
        .subcommand(load_command(alloc)?)?
        .subcommand(look_command(alloc)?)?
        .subcommand(ask_command(alloc)?)?
        .subcommand(dump_command(alloc)?)
}

fn load_command<'a>(alloc: Global) -> Result<Command<'a>, AllocError> {
    let inputs = Arg::new(alloc, "IN")
        .num_args(0..)
        .action(ArgAction::Append)
        .help("Files of documents; standard input where none is named, or -");
    let format = Arg::new(alloc, "format")
        .long("format")
        .value_name("FORMAT")
        .value_parser(["jsonl", "csv"].as_slice())
        .help(
            "How documents are written; else the end of the first name tells, and jsonl is meant",
        );
    let skips = Arg::new(alloc, "skip-bad")
        .long("skip-bad")
        .action(ArgAction::SetTrue)
        .help("Skips lines that are no documents, and counts them");
    Command::new(alloc, "load")
        .about("Writes a file of documents: objects in JSON, one a line, or CSV with a header line")
        .arg(
            Arg::new(alloc, "OUT")
                .required(true)
                .help("The file to write"),
        )?
        .arg(inputs)?
        .arg(form_words(
            alloc,
            "date",
            "FIELD",
            "A date, or a time as RFC 3339 has it",
        ))?
        .arg(form_words(
            alloc,
            "millis",
            "FIELD",
            "A time in whole milliseconds since 1970",
        ))?
        .arg(form_words(alloc, "ip", "FIELD", "An address, with dots or with colons"))?
        .arg(form_words(alloc, "bytes", "FIELD", "Bytes in hexadecimal digits"))?
        .arg(form_words(
            alloc,
            "decimal",
            "FIELD=N",
            "A number with at most N digits behind its point, held as a whole one: 1.5 by 2 is 150",
        ))?
        .arg(format)?
        .arg(skips)
}

// An option that tells the form of a field, as often as is wanted.
fn form_words<'a>(
    alloc: Global,
    name: &'static str,
    value: &'static str,
    help: &'static str,
) -> Arg<'a> {
    Arg::new(alloc, name)
        .long(name)
        .value_name(value)
        .action(ArgAction::Append)
        .help(help)
}

fn look_command<'a>(alloc: Global) -> Result<Command<'a>, AllocError> {
    Command::new(alloc, "look")
        .about("Shows what files hold")
        .arg(
            Arg::new(alloc, "FILE")
                .required(true)
                .num_args(1..)
                .action(ArgAction::Append),
        )?
        .arg(
            Arg::new(alloc, "column")
                .long("column")
                .value_name("NAME")
                .help("Draws a column: how its numbers lie, or its most frequent terms"),
        )?
        .arg(count_word(alloc, "rows", "N", "Shows so many rows"))?
        .arg(count_word(alloc, "from", "R", "The first row that is shown, from 0 on"))?
        .arg(columns_word(alloc))?
        .arg(
            Arg::new(alloc, "json")
                .long("json")
                .action(ArgAction::SetTrue)
                .help("Prints JSON lines"),
        )?
        .arg(
            Arg::new(alloc, "html")
                .long("html")
                .action(ArgAction::SetTrue)
                .help("Prints a page for a browser, with a drawing of each column"),
        )?
        .arg(width_word(alloc))
}

fn ask_command<'a>(alloc: Global) -> Result<Command<'a>, AllocError> {
    Command::new(alloc, "ask")
        .about("Tells the rows of a file that a filter takes")
        .arg(Arg::new(alloc, "FILE").required(true))?
        .arg(
            Arg::new(alloc, "WORDS")
                .required(true)
                .help("Such as: level = error and size 100..200 and not city"),
        )?
        .arg(
            Arg::new(alloc, "count")
                .long("count")
                .action(ArgAction::SetTrue)
                .help("Prints how many rows there are, as it does where nothing else is asked"),
        )?
        .arg(count_word(alloc, "rows", "N", "Prints the first N of these rows"))?
        .arg(
            Arg::new(alloc, "top")
                .long("top")
                .value_name("FIELD")
                .help("Prints the most frequent values of a field in these rows"),
        )?
        .arg(columns_word(alloc))?
        .arg(width_word(alloc))
}

fn dump_command<'a>(alloc: Global) -> Result<Command<'a>, AllocError> {
    Command::new(alloc, "dump")
        .about("Prints the rows of a file as objects in JSON, one a line, or as CSV")
        .arg(Arg::new(alloc, "FILE").required(true))?
        .arg(
            Arg::new(alloc, "format")
                .long("format")
                .value_name("FORMAT")
                .value_parser(["jsonl", "csv"].as_slice())
                .help("How rows are printed; jsonl where none is told"),
        )
}

fn count_word<'a>(
    alloc: Global,
    name: &'static str,
    value: &'static str,
    help: &'static str,
) -> Arg<'a> {
    Arg::new(alloc, name)
        .long(name)
        .value_name(value)
        .value_parser(clap::value_parser!(u32))
        .help(help)
}

fn columns_word<'a>(alloc: Global) -> Arg<'a> {
    Arg::new(alloc, "columns")
        .long("columns")
        .value_name("NAMES")
        .value_delimiter(',')
        .action(ArgAction::Append)
        .help("The columns that rows are shown with, parted by commas")
}

fn width_word<'a>(alloc: Global) -> Arg<'a> {
    Arg::new(alloc, "width")
        .long("width")
        .value_name("N")
        .value_parser(clap::value_parser!(u32))
        .help("How many columns a line may take")
}
