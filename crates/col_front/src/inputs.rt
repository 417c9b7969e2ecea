//! The inputs of `load`, one behind another.

ghost use Rattle.std.specs.Prelude.{◌≡◌, ◌<◌, ◌≤◌, None, length, OnOk};
ghost use Rattle.std.specs.Io.{ReadsAtMost};
ghost use Rattle.col_common.specs.Causes.{HasCause, Rose};
ghost use Rattle.col_common.specs.declared.outside.HandleError.TheVariants as HandleError;

use crate::ending::Ending;
use crate::progress::Progress;
use col_common::{ColumnarError, HandleError, Source, StdSource};
use std::alloc::Global;
use std::rt::Stdin;
use std::{fs, io};

/// The inputs that words name, as one source of lines. Where an input doesn't end with a line feed,
/// one is put behind it, so that each line is one of a single input.
#[derive(Drop)]
pub struct Inputs<'a> {
    rt: &'a HostRuntime,
    // The names of those that weren't begun.
    left: &'a [&'a str],
    open: Option<Input>,
    // Whether what was read of the open one ends a line.
    ends_line: bool,
    // How many lines have ended.
    lines: u64,
    // Each that was begun, with how many lines had ended before it.
    begun: Vec<(&'a str, u64)>,
    unread: Option<Ending>,
    progress: Progress<'a>,
    faults: u64,
}

#[derive(Drop)]
enum Input {
    Standard(StdSource<Stdin>),
    File(StdSource<fs::File>),
}

impl<'a> Inputs<'a> {
    /// Before anything is read. The name `-` is that of standard input.
    pub fn new(rt: &'a HostRuntime, names: &'a [&'a str]) -> Inputs<'a> {
        Inputs {
            rt,
            left: names,
            open: None,
            ends_line: true,
            lines: 0,
            begun: Vec::new(rt.alloc()),
            unread: None,
            progress: Progress::new(rt, names),
            faults: 0,
        }
    }

    /// Nothing more is read, and nothing more told of it.
    pub fn end(&mut self) {
        self.progress.end();
    }

    /// How many lines have ended.
    pub fn lines(&self) -> u64 {
        self.lines
    }

    /// Why one of them couldn't be read; none a second time.
    pub fn take_unread(&mut self) -> Option<Ending> {
        self.unread.take()
    }

    /// The input that has the line with a number, and the line's number within it, both from 1 on.
    pub fn place_of(&self, number: u64) -> Option<(&'a str, u64)> {
        let mut place = None;
        for (name, before) in self.begun.iter() {
            if *before < number {
                place = Some((*name, number - *before));
            }
        }
        place
    }
}

impl Source for Inputs<'_> {
    ghost left = { λ s. None };

    ghost faults = { λ s. s.faults };

    fn read(&mut self, buffer: &mut [u8]) -> Result<usize, HandleError> {
        let count = self.read_open(buffer)?;
        if count > 0 {
            return Ok(count);
        }
        let names = self.left;
        'names: for (place, name) in names.iter().enumerate() {
            self.left = names.get(place.saturating_add(1)..).unwrap_or(&[]);
            self.begin(*name)?;
            let count = self.read_open(buffer)?;
            if count > 0 {
                return Ok(count);
            }
        }
        Ok(0)
    }
}

impl<'a> Inputs<'a> {
    // Opens the input with a name.
    fn begin(&mut self, name: &'a str) -> Result<(), HandleError>
        ensures cause { HasCause self.old.faults self.new.faults result }
        ensures same { OnOk result (self.new.faults ≡ self.old.faults) }
    {
        self.begun.push((name, self.lines))?;
        if name == "-" {
            self.open = Some(Input::Standard(StdSource::new(self.rt.stdin())));
            return Ok(());
        }
        match fs::File::open(self.rt, name) {
            Ok(file) => {
                self.open = Some(Input::File(StdSource::new(file)));
                Ok(())
            }
            Err(error) => Err(self.fail(unread(self.rt.alloc(), name, &error))),
        }
    }

    // Takes bytes of the open input, and a line feed behind its last line where that lacks one.
    fn read_open(&mut self, buffer: &mut [u8]) -> Result<usize, HandleError>
        requires { 0 < length buffer.old }
        ensures within { ReadsAtMost result buffer.new }
        ensures cause { HasCause self.old.faults self.new.faults result }
        ensures same { OnOk result (self.new.faults ≡ self.old.faults) }
    {
        let read = match &mut self.open {
            None => return Ok(0),
            Some(Input::Standard(source)) => source.read(buffer),
            Some(Input::File(source)) => source.read(buffer),
        };
        let Ok(count) = read else {
            let ending = self.failed_read();
            return Err(self.fail(ending));
        };
        if let Some(last) = buffer[..count].last() {
            self.ends_line = *last == b'\n';
            self.count_lines(&buffer[..count]);
            return Ok(count);
        }
        self.open = None;
        if self.ends_line {
            return Ok(0);
        }
        self.ends_line = true;
        self.lines = self.lines.saturating_add(1);
        buffer[0] = b'\n';
        Ok(1)
    }

    fn count_lines(&mut self, bytes: &[u8])
        ensures { self.new.faults ≡ self.old.faults }
    {
        let ended = bytes.iter().filter(|byte| **byte == b'\n').count();
        self.lines = self.lines.saturating_add(ended as u64);
        self.progress.step(bytes.len(), self.lines);
    }

    // What is said where the last input that was begun can't be read.
    fn failed_read(&self) -> Ending {
        let name = match self.begun.last() {
            Some(begun) => begun.0,
            None => "-",
        };
        Ending {
            status: ColumnarError::ReadFault.code(),
            text: format!(in self.rt.alloc(); "{name}: it can't be read").ok(),
        }
    }

    // Counts a failure, and keeps what is said of it.
    fn fail(&mut self, ending: Ending) -> HandleError
        ensures failed { result ≡ HandleError.Failed }
        ensures later { self.old.faults ≤ self.new.faults }
        ensures rose { Rose self.old.faults self.new.faults }
    {
        self.open = None;
        self.unread = Some(ending);
        self.faults = self.faults.saturating_add(1);
        HandleError::Failed
    }
}

/// That a file can't be read.
pub fn unread(alloc: Global, path: &str, error: &io::Error) -> Ending {
    let status = if error.kind() == io::ErrorKind::OutOfMemory {
        ColumnarError::OutOfMemory.code()
    } else {
        ColumnarError::ReadFault.code()
    };
    Ending {
        status,
        text: format!(in alloc; "{path}: {error}").ok(),
    }
}
