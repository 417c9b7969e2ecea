//! Objects in memory.

use bytes::Bytes;
use col_common::{
    ColumnarError, FileHandle, FileInMemory, HandleError, MemSource, Sink, SourceInMemory, VecSink,
    read_to_limit,
};
use std::test::Fail;

#[test]
fn a_source_in_memory_is_read_to_its_limit(rt: HostRuntime) -> Result<(), Fail> {
    let alloc = rt.alloc();
    let mut source = MemSource::new(b"abcdef".to_vec(alloc)?, vec![in alloc; 2]?);
    assert_eq!(rt;
        read_to_limit(alloc, &mut source, 3)?.as_slice(),
        b"abcd".as_slice()
    );
    let Err(error) = read_to_limit(alloc, &mut source, 3) else {
        return Err("the third read is to fail")?;
    };
    assert_eq!(rt; error, ColumnarError::ReadFault);
    Ok(())
}

#[test]
fn a_sink_in_memory_fails_at_the_listed_calls(rt: HostRuntime) -> Result<(), Fail> {
    let alloc = rt.alloc();
    let mut sink = VecSink::new(b"ab".to_vec(alloc)?, vec![in alloc; 1]?);
    sink.write_all(b"cd")?;
    assert!(rt; sink.write_all(b"ef") == Err(HandleError::Failed));
    sink.write_all(b"gh")?;
    assert_eq!(rt; sink.bytes(), b"abcdegh".as_slice());
    assert_eq!(rt; sink.into_bytes().len(), 7);
    Ok(())
}

#[test]
fn a_source_and_a_file_without_faults_are_read(rt: HostRuntime) -> Result<(), Fail> {
    let alloc = rt.alloc();
    let mut source = SourceInMemory::new(b"abc".to_vec(alloc)?);
    assert_eq!(rt;
        read_to_limit(alloc, &mut source, 9)?.as_slice(),
        b"abc".as_slice()
    );
    let mut file = FileInMemory::new(Bytes::copy_from_slice(alloc, b"abcdef")?);
    assert_eq!(rt; file.read(alloc, 2, 5)?.as_slice(), b"cde".as_slice());
    Ok(())
}
