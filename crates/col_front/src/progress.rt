//! How far a load is.

use std::fs;
use std::io::IsTerminal;
use std::time::Instant;

/// What was read so far, told on standard error a few times a second, where that is a screen.
#[derive(Drop)]
pub struct Progress<'a> {
    rt: &'a HostRuntime,
    // When the load began; none where nothing is told.
    start: Option<Instant>,
    // The milliseconds from then on before which nothing more is told.
    next: u128,
    // How many bytes the inputs have, where all of them tell.
    total: Option<u64>,
    bytes: u64,
    is_told: bool,
}

// The milliseconds between two lines; a load that takes no more is silent.
const STEP: u128 = 500;

impl<'a> Progress<'a> {
    /// Before anything is read of inputs.
    pub fn new(rt: &'a HostRuntime, names: &[&str]) -> Progress<'a> {
        let mut start = None;
        if rt.stderr().is_terminal() {
            start = Instant::now(rt).ok();
        }
        Progress {
            rt,
            start,
            next: STEP,
            total: bytes_of(rt, names),
            bytes: 0,
            is_told: false,
        }
    }

    /// So many bytes more were read, and so many lines in all.
    pub fn step(&mut self, bytes: usize, lines: u64) {
        self.bytes = self.bytes.saturating_add(bytes as u64);
        let Some(start) = self.start else {
            return;
        };
        let Ok(spent) = start.elapsed(self.rt) else {
            return;
        };
        let spent = spent.as_millis();
        if spent >= self.next {
            self.next = spent.saturating_add(STEP);
            self.is_told = true;
            self.tell(lines, spent);
        }
    }

    // Writes one line over the last one.
    fn tell(&self, lines: u64, spent: u128) {
        let rate = per_second(lines, spent);
        let read = self.bytes / 1_000_000;
        let _ = match self.total {
            Some(total) if total > self.bytes => {
                let left = seconds_left(total - self.bytes, self.bytes, spent);
                let total = total / 1_000_000;
                eprint!(self.rt;
                    "\r\u{1b}[K{read} of {total} MB, {lines} lines, {rate} a second, {left} s left"
                )
            }
            _ => eprint!(self.rt; "\r\u{1b}[K{read} MB, {lines} lines, {rate} a second"),
        };
    }

    /// Clears the line.
    pub fn end(&mut self) {
        if self.is_told {
            self.is_told = false;
            let _ = eprint!(self.rt; "\r\u{1b}[K");
        }
    }
}

// How many lines a second so many are in these milliseconds.
fn per_second(lines: u64, millis: u128) -> u128 {
    u128::from(lines)
        .saturating_mul(1000)
        .checked_div(millis)
        .unwrap_or(0)
}

// How many seconds the bytes that are left take, as those that were read took these milliseconds.
fn seconds_left(left: u64, read: u64, millis: u128) -> u128 {
    u128::from(left)
        .saturating_mul(millis)
        .checked_div(u128::from(read).saturating_mul(1000))
        .unwrap_or(0)
}

// How many bytes files have together; none where one of them isn't a file that tells.
fn bytes_of(rt: &HostRuntime, names: &[&str]) -> Option<u64> {
    let mut total = 0u64;
    for name in names {
        if *name == "-" {
            return None;
        }
        let attributes: fs::Metadata = fs::metadata(rt, *name).ok()?;
        total = total.saturating_add(attributes.len());
    }
    Some(total)
}
