//! Bytes in memory as a source and as a file that never fail.
ghost use Rattle.std.specs.Prelude.{◌≡◌, ◌<◌, ◌↔◌, [], Some, length, IsOk, IfOk};
ghost use Rattle.std.specs.Io.{ReadsAtMost};
ghost use Rattle.std.proofs.Common.{refl};
ghost use Rattle.col_common.specs.Outside.{ReadTakes, told_file};

use crate::{FileHandle, HandleError, Source};
use bytes::Bytes;
use std::alloc::Global;
use std::marker::Model;

/// Bytes that are read once, by reads that all succeed.
#[derive(Drop)]
pub struct SourceInMemory {
    bytes: Vec<u8>,
    place: usize,
}

impl Model for SourceInMemory {
    ghost use Rattle.std.specs.Prelude.{ℕ, List, ◌≤◌, drop, length};

    ghost Value = { List ℕ };

    ghost view = { λ s. drop s.place s.bytes.items };

    ghost invariant = { λ s. s.place ≤ length s.bytes.items };
}

impl SourceInMemory {
    pub fn new(bytes: Vec<u8>) -> SourceInMemory
        ensures { result ≡ bytes.items }
    {
        SourceInMemory { bytes, place: 0 }
    }
}

impl Source for SourceInMemory {
    ghost left = { λ s. Some s };

    ghost faults = { λ s. 0 };

    fn read(&mut self, buffer: &mut [u8]) -> Result<usize, HandleError>
        requires { 0 < length buffer.old }
        ensures within { ReadsAtMost result buffer.new }
        ensures taken { ReadTakes (Some self.old) (Some self.new) result buffer.new }
        ensures ended { IfOk result (λ n. (n ≡ 0) ↔ (self.old ≡ [])) }
        ensures always { IsOk result }
    {
        let rest = &self.bytes[self.place..];
        let count = buffer.len().min(rest.len());
        buffer[..count].copy_from_slice(&rest[..count]);
        self.place += count;
        Ok(count)
    }
}

/// A file of bytes, whose parts are cuts of one buffer. Want of memory alone refuses a read.
#[derive(Drop)]
pub struct FileInMemory {
    bytes: Bytes,
    reads: u64,
}

impl Model for FileInMemory {
    ghost use Rattle.col_common.specs.Memory.{TimesRead};

    ghost Value = { TimesRead };

    ghost view = { λ f. record { bytes = f.bytes; reads = f.reads } };
}

impl FileInMemory {
    /// A file of these bytes, which weren't read yet.
    pub fn new(bytes: Bytes) -> FileInMemory
        ensures { result ≡ record { bytes = bytes; reads = 0 } }
    {
        FileInMemory { bytes, reads: 0 }
    }
}

impl FileHandle for FileInMemory {
    ghost seen = { λ f. told_file f.bytes 0 f.reads };

    ghost told_whole = { λ f. refl };

    fn len(&self) -> u64 {
        self.bytes.len() as u64
    }

    fn read(&mut self, _alloc: Global, start: u64, end: u64) -> Result<Bytes, HandleError> {
        self.reads = self.reads.saturating_add(1);
        Ok(self.bytes.slice(start as usize..end as usize)?)
    }
}
