//! The adapters over readers, writers and files of the system.

use col_common::{FileHandle, FileOnDisk, FileSink, HandleError, Sink, Source, StdSink, StdSource};
use std::io::{Read, Write};
use std::test::Fail;
use std::{fs, io};

// Gives three bytes, and fails from then on.
#[derive(Drop)]
struct Broken {
    calls: u8,
}

impl Read for Broken {
    fn read(&mut self, buffer: &mut [u8]) -> io::Result<usize> {
        if self.calls > 0 || buffer.len() < 3 {
            return Err(io::ErrorKind::BrokenPipe.into());
        }
        self.calls = 1;
        buffer[..3].copy_from_slice(b"abc");
        Ok(3)
    }
}

// Takes no byte.
#[derive(Drop)]
struct Full;

impl Write for Full {
    fn write(&mut self, _bytes: &[u8]) -> io::Result<usize> {
        Ok(0)
    }

    fn flush(&mut self) -> io::Result<()> {
        Ok(())
    }
}

#[test]
fn a_reader_that_breaks_and_a_writer_that_takes_nothing_are_faults(
    rt: HostRuntime,
) -> Result<(), Fail> {
    let mut source = StdSource::new(Broken { calls: 0 });
    let mut buffer = [0; 8];
    assert_eq!(rt; source.read(&mut buffer)?, 3);
    assert!(rt; source.read(&mut buffer) == Err(HandleError::Failed));
    let mut sink = StdSink::new(Full);
    assert!(rt; sink.write_all(b"a") == Err(HandleError::Failed));
    Ok(())
}

#[test]
fn a_file_is_created_at_the_first_write(rt: HostRuntime) -> Result<(), Fail> {
    let alloc = rt.alloc();
    let mut sink = FileSink::new(rt.clone()?, String::from_str(alloc, "new")?);
    assert!(rt; FileOnDisk::open(&rt, "new").is_err());
    sink.write_all(b"abc")?;
    sink.write_all(b"def")?;
    let mut file = FileOnDisk::open(&rt, "new")?;
    assert_eq!(rt; file.len(), 6);
    if file.len() == 6 {
        assert_eq!(rt; file.read(alloc, 1, 4)?.as_slice(), b"bcd".as_slice());
        // It is cut to nothing.
        fs::create(&rt, "new")?;
        assert!(rt; file.read(alloc, 1, 4).is_err());
    }
    fs::remove_file(&rt, "new")?;
    Ok(())
}
