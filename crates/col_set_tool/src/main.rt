//! The program of sets: it opens the set that a disk's file holds, takes the steps of a script, and
//! writes the set as one file, with a report on the script's lookups.
#![tactic(auto)]

mod reading;
mod run;
#[cfg(test)]
mod tests;
mod whole;

use col_common::{FileSink, StdSink, StdSource};
use col_disk::DiskOnFile;
pub use run::run_set;
use std::process::ExitCode;
use std::{env, fs, io};

fn main(rt: HostRuntime) -> ExitCode {
    ExitCode::from(status_of_run(rt))
}

// Calls `run_set` with the disk's file and the output that the words name, and with the standard
// streams.
fn status_of_run(rt: HostRuntime) -> u8 {
    // A standard stream that is closed is a folder from here on, which can be neither read nor
    // written: else a file that is opened later would stand in its place.
    let _streams = [
        fs::File::open(&rt, "/"),
        fs::File::open(&rt, "/"),
        fs::File::open(&rt, "/"),
    ];
    let alloc = rt.alloc();
    let words = match words_of(&rt) {
        Ok(words) => words,
        Err(error) if error.kind() == io::ErrorKind::OutOfMemory => return 3,
        Err(_) => return 2,
    };
    let [disk, output] = words.as_slice() else {
        return 2;
    };
    let Ok(path) = output.clone() else {
        return 3;
    };
    let disk = match DiskOnFile::open(&rt, disk.as_str()) {
        Ok(disk) => disk,
        Err(error) if error.kind() == io::ErrorKind::OutOfMemory => return 3,
        Err(_) => return 4,
    };
    let mut script = StdSource::new(rt.stdin());
    let mut report = StdSink::new(rt.stdout());
    let mut output = FileSink::new(rt, path);
    let (status, _) = run_set(alloc, disk, &mut script, &mut output, &mut report);
    status
}

fn words_of(rt: &HostRuntime) -> io::Result<Vec<String>> {
    let mut words = Vec::new(rt.alloc());
    for word in env::args(rt)?.skip(1) {
        words.push(word)?;
    }
    Ok(words)
}
