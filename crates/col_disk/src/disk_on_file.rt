//! A disk that is a file of the system. No contract says what it holds.
ghost use Rattle.std.specs.Prelude.{◌≡◌, IfOk};
ghost use Rattle.col_disk.specs.DiskLaws.{untold_is_disk};
ghost use Rattle.col_disk.specs.Disks.{untold_disk};

use crate::Disk;
use crate::faults::counted;
use bytes::Bytes;
use col_common::HandleError;
use std::alloc::Global;
use std::fs::{OpenFile, OpenOptions};
use std::io;
use std::io::{Read, Seek, SeekFrom, Write};
use std::rt::Files;

/// An open file, with the end that reads and writes have known.
#[derive(Drop)]
pub struct DiskOnFile<F: Read + Write + Seek + OpenFile> {
    file: F,
    len: u64,
    faults: u64,
}

impl<F: Read + Write + Seek + OpenFile> DiskOnFile<F> {
    /// Opens a file to be read and written, which is made where there is none. It has not failed.
    pub fn open<R: Files<File = F>>(files: &R, path: &str) -> io::Result<DiskOnFile<F>>
    where
        F: Drop,
        ensures { IfOk result (λ d. (⟦<DiskOnFile<F> as Disk>⟧.seen d).faults ≡ 0) }
    {
        let mut how = OpenOptions::new();
        how.read(true).write(true).create(true);
        let file = how.open(files, path)?;
        let len = file.metadata()?.len();
        Ok(DiskOnFile {
            file,
            len,
            faults: 0,
        })
    }
}

impl<F: Read + Write + Seek + OpenFile> Disk for DiskOnFile<F> {
    ghost seen = { λ d. untold_disk d.len d.faults };

    ghost laws = { λ d. untold_is_disk d.len d.faults };

    fn len(&self) -> u64 {
        self.len
    }

    fn read(&mut self, alloc: Global, start: u64, end: u64) -> Result<Bytes, HandleError> {
        let mut part = vec![in alloc; 0; (end - start) as usize]?;
        let done = read_from(&mut self.file, start, &mut part);
        counted(&mut self.faults, done.is_err())?;
        Ok(Bytes::from_vec(part)?)
    }

    fn write_at(&mut self, pos: u64, bytes: &[u8]) -> Result<(), HandleError> {
        let Some(end) = pos.checked_add(bytes.len() as u64) else {
            return counted(&mut self.faults, true);
        };
        let done = write_from(&mut self.file, pos, bytes);
        counted(&mut self.faults, done.is_err())?;
        self.len = self.len.max(end);
        Ok(())
    }

    fn sync(&mut self) -> Result<(), HandleError> {
        let done = self.file.sync_all();
        counted(&mut self.faults, done.is_err())
    }
}

fn read_from<F: Read + Seek>(file: &mut F, start: u64, part: &mut [u8]) -> io::Result<()> {
    file.seek(SeekFrom::Start(start))?;
    file.read_exact(part)
}

fn write_from<F: Write + Seek>(file: &mut F, start: u64, bytes: &[u8]) -> io::Result<()> {
    file.seek(SeekFrom::Start(start))?;
    file.write_all(bytes)?;
    file.flush()
}
