//! The program for ordinary data: it loads documents into a file, and looks into files.
#![tactic(auto)]

mod ask;
mod asked;
mod csv_rows;
mod draw;
mod ending;
mod ends;
mod filter;
mod forms;
mod inputs;
mod load;
mod load_csv;
mod look;
mod page;
mod progress;
mod refusals;
mod rows;
mod shown;
mod table;
mod tokens;
mod words;

use clap::ArgMatches;
use ending::{BAD_WORDS, Ending};
use std::process::ExitCode;
use std::{env, fs, io};

fn main(rt: HostRuntime) -> ExitCode {
    // A standard stream that is closed is a folder from here on, which can be neither read nor
    // written: else a file that is opened later would stand in its place.
    let _streams = [
        fs::File::open(&rt, "/"),
        fs::File::open(&rt, "/"),
        fs::File::open(&rt, "/"),
    ];
    ExitCode::from(status_of_run(&rt))
}

fn status_of_run(rt: &HostRuntime) -> u8 {
    let words = match words_of(rt) {
        Ok(words) => words,
        Err(error) if error.kind() == io::ErrorKind::OutOfMemory => return 3,
        Err(_) => return BAD_WORDS,
    };
    let Ok(command) = words::command(rt.alloc()) else {
        return 3;
    };
    match command.try_get_matches_from(words.as_slice()) {
        Ok(matches) => status_of(rt, run(rt, &matches)),
        Err(error) => {
            let _ = error.print(rt);
            u8::try_from(error.exit_code()).unwrap_or(BAD_WORDS)
        }
    }
}

fn words_of(rt: &HostRuntime) -> io::Result<Vec<String>> {
    let mut words = Vec::new(rt.alloc());
    // Whatever the program's file is called, people call it so.
    words.push(String::from_str(rt.alloc(), "columnar")?)?;
    for word in env::args(rt)?.skip(1) {
        words.push(word)?;
    }
    Ok(words)
}

// The status of an end, with what is said of it on standard error.
fn status_of(rt: &HostRuntime, ended: Result<(), Ending>) -> u8 {
    match ended {
        Ok(()) => 0,
        Err(ending) => {
            if let Some(text) = &ending.text {
                let _ = eprintln!(rt; "columnar: {text}");
            }
            ending.status
        }
    }
}

fn run(rt: &HostRuntime, matches: &ArgMatches<'_>) -> Result<(), Ending> {
    let Some((word, matches)) = matches.subcommand() else {
        return Ok(());
    };
    match word {
        "load" => load::load(rt, matches),
        "look" => look::look(rt, matches, width_of(matches)),
        "ask" => asked::ask(rt, matches, width_of(matches)),
        "dump" => asked::dump(rt, matches),
        _ => Ok(()),
    }
}

// How many columns a line may take.
fn width_of(matches: &ArgMatches<'_>) -> Option<usize> {
    matches.get_one::<u32>("width").map(|width| width as usize)
}
