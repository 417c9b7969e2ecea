//! A disk in memory. It keeps what was written to it, so that it tells what a crash might have left
//! at each moment.
ghost use Rattle.std.specs.Prelude.{◌≡◌, ◌<◌, ◌≤◌, false, true, length, IfOk, vec_len, vec_capacity};
ghost use Rattle.col_disk.specs.Crash.{overwritten};
ghost use Rattle.col_disk.specs.DiskLaws.{history_is_disk};
ghost use Rattle.col_disk.specs.Disks.{IsDurable};
ghost use Rattle.col_disk.specs.History.{IsHistory, IsMadeWrite, told_by_history};

use crate::Disk;
use crate::faults::counted;
use crate::history::{Entry, Write};
use bytes::Bytes;
use col_common::HandleError;
use std::alloc::{AllocError, Global};

/// Bytes in memory, with all that was written to them. Reads, writes and syncs are counted, and
/// those with listed numbers fail. A write that fails leaves the first half of its bytes.
#[derive(Drop)]
pub struct MemDisk {
    alloc: Global,
    first: Vec<u8>,
    bytes: Vec<u8>,
    entries: Vec<Entry>,
    pending: bool,
    failing: Vec<u64>,
    calls: u64,
    faults: u64,
    ghost history: { IsHistory first.items entries.items bytes.items pending },
    ghost room: { pending ≡ true → vec_len entries < vec_capacity entries },
}

impl MemDisk {
    /// A disk with these bytes, of which the calls with these numbers, from 0 on, fail.
    pub fn new(alloc: Global, bytes: Vec<u8>, failing: Vec<u64>) -> Result<MemDisk, AllocError>
        ensures durable { IfOk result (λ d. IsDurable (⟦<MemDisk as Disk>⟧.seen d) bytes.items) }
        ensures faults { IfOk result (λ d. (⟦<MemDisk as Disk>⟧.seen d).faults ≡ 0) }
    {
        let first = bytes.to_vec(alloc)?;
        Ok(MemDisk {
            alloc,
            first,
            bytes,
            entries: Vec::new(alloc),
            pending: false,
            failing,
            calls: 0,
            faults: 0,
        })
    }
}

impl Disk for MemDisk {
    ghost seen = { λ d. told_by_history d.first.items d.entries.items d.bytes.items d.faults };

    ghost laws = { λ d. history_is_disk d.faults d.history };

    fn len(&self) -> u64 {
        self.bytes.len() as u64
    }

    fn read(&mut self, alloc: Global, start: u64, end: u64) -> Result<Bytes, HandleError> {
        let fails = next_fails(&self.failing, &mut self.calls);
        counted(&mut self.faults, fails)?;
        Ok(Bytes::from_vec(self.bytes[start as usize..end as usize].to_vec(alloc)?)?)
    }

    // It makes room for its own entry and the next sync's.
    fn write_at(&mut self, pos: u64, bytes: &[u8]) -> Result<(), HandleError> {
        let fails = next_fails(&self.failing, &mut self.calls);
        let (write, new) = made_write(self.alloc, &self.bytes, pos, bytes, fails)?;
        self.entries.reserve(2)?;
        self.bytes = new;
        self.entries.push_reserved(Entry::Wrote(write));
        self.pending = true;
        counted(&mut self.faults, fails)
    }

    fn sync(&mut self) -> Result<(), HandleError> {
        let fails = next_fails(&self.failing, &mut self.calls);
        counted(&mut self.faults, fails)?;
        if self.pending {
            self.entries.push_reserved(Entry::Synced);
            self.pending = false;
        }
        Ok(())
    }
}

// Whether the next call is to fail.
fn next_fails(failing: &[u64], calls: &mut u64) -> bool {
    let fails = failing.contains(calls);
    *calls = calls.saturating_add(1);
    fails
}

// A write of these bytes, of which one that fails puts the first half there, and the bytes then.
fn made_write(
    alloc: Global,
    old: &[u8],
    pos: u64,
    bytes: &[u8],
    fails: bool,
) -> Result<(Write, Vec<u8>), AllocError>
    requires { pos ≤ length old.now }
    ensures made { IfOk result (λ made. IsMadeWrite pos bytes.now old.now made.0 made.1.items) }
    ensures whole { fails ≡ false → IfOk result (λ made. made.0.bytes.items ≡ bytes.now) }
{
    let put = part_of(fails, bytes);
    let new = with_bytes_at(alloc, old, pos as usize, put)?;
    let write = Write {
        pos,
        size: bytes.len() as u64,
        bytes: put.to_vec(alloc)?,
    };
    Ok((write, new))
}

// What a write puts there.
fn part_of(fails: bool, bytes: &[u8]) -> &[u8]
    ensures whole { fails ≡ false → result.now ≡ bytes.now }
    ensures no_more { length result.now ≤ length bytes.now }
{
    if fails {
        &bytes[..bytes.len() / 2]
    } else {
        bytes
    }
}

// The old bytes with these in their place.
fn with_bytes_at(alloc: Global, old: &[u8], at: usize, put: &[u8]) -> Result<Vec<u8>, AllocError>
    requires { at ≤ length old.now }
    ensures { IfOk result (λ new. new.items ≡ overwritten at put.now old.now) }
{
    let mut new = old[..at].to_vec(alloc)?;
    new.extend_from_slice(put)?;
    if put.len() < old.len() - at {
        new.extend_from_slice(&old[at + put.len()..])?;
    }
    Ok(new)
}
