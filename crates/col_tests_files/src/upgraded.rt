//! Files that are written again, by examples. Bytes were worked out by hand from the format's page.
use crate::file::{TEN_AND_TWENTY, THREE_WITHOUT, opened};
use col_common::{Buffer, ColumnarError, VecSink};
use col_upgrade::upgrade;
use std::alloc::Global;
use std::test::Fail;

// The u64 column "a" of the rows [7, 8], [] and [9], in version 1.
const OLD: &[u8] = b"\x02\0\x80\x81\x83\x84\xe8\0\x87\x81\x82\x83\x24\x07\0\0\0\0\0\0\0\
\x81\x83a\0\x01\x95\x06\0\0\0\0\0\0\0\x03\0\0\0\x01\0\0\0\x02qwB";

// The same in version 3.
const OLD_AGAIN: &[u8] = b"\x02\0\x83\0\x80\x82\x81\x82\x02\0\x80\x81\x83\x83\x38\
\x08\0\0\0\0\0\0\0\0\x87\x81\x82\x83\x24\x17\0\0\0\0\0\0\0\
\x81\x83a\0\x01\xa5\x06\0\0\0\0\0\0\0\x03\0\0\0\x03\0\0\0\x02qwB";

// The rows 10 and 20 in version 2.
const OLD_TEN_AND_TWENTY: &[u8] = b"\0\0\x8a\x8a\x81\x82\x02\x01\0\0\0\0\0\0\0\
\x81\x83a\0\x01\x8f\x06\0\0\0\0\0\0\0\x02\0\0\0\x02\0\0\0\x02qwB";

// The str column "s" of three rows without a value, in version 2.
const OLD_THREE_WITHOUT: &[u8] = b"\0\0\0\0\x01\x83\0\x80\x81\x80\x80\0\x80\x81\x80\x80\
\x07\0\0\0\0\0\0\0\x04\0\0\0\x81\x83s\0\x04\x9c\x06\0\0\0\0\0\0\0\x03\0\0\0\x02\0\0\0\x02qwB";

// The u64 column "a" of 100 rows of which the first 40 have the value 7, in version 2.
const FORTY: &[u8] = b"\x01\xe4\0\x80\x81\xa7\xa8@ \x0cDa\x1cH\xa2,L\xe3<P$MTe]X\xa6m\x5c\xe7}\
`(\x8edi\x9e\0\x87\x81\x80\xa8%\0\0\0\0\0\0\0\
\x81\x83a\0\x01\xb2\x06\0\0\0\0\0\0\0d\0\0\0\x02\0\0\0\x02qwB";

// The same in version 3: its rows are one run.
const FORTY_AGAIN: &[u8] = b"\x01\x01\xe4\0\x80\x81\x80\x81\0\xa8\x81\x80\x81\x05\0\0\0\0\0\0\0\
\0\x87\x81\x80\xa8\x15\0\0\0\0\0\0\0\
\x81\x83a\0\x01\xa2\x06\0\0\0\0\0\0\0d\0\0\0\x03\0\0\0\x02qwB";

// Two columns, the second of which has codec 7.
const BAD: &[u8] =
    b"\0\0\x8a\x8a\x81\x82\x02\x01\0\0\0\0\0\0\0\0\x07\x8a\x8a\x81\x82\x02\x01\0\0\0\0\0\0\0\
\x82\x83a\0\x01\x8f\x83b\0\x01\x8f\x0b\0\0\0\0\0\0\0\x02\0\0\0\x02\0\0\0\x02qwB";

// Files, and what they become.
const FILES: [(&[u8], &[u8]); 8] = [
    (OLD, OLD_AGAIN),
    (OLD_AGAIN, OLD_AGAIN),
    (OLD_TEN_AND_TWENTY, TEN_AND_TWENTY),
    (TEN_AND_TWENTY, TEN_AND_TWENTY),
    (OLD_THREE_WITHOUT, THREE_WITHOUT),
    (THREE_WITHOUT, THREE_WITHOUT),
    (FORTY, FORTY_AGAIN),
    (FORTY_AGAIN, FORTY_AGAIN),
];

// A file that is written again, where the reads with these numbers fail.
fn again(alloc: Global, bytes: &'static [u8], failing: &[u64]) -> Result<Buffer, ColumnarError> {
    let mut reader = opened(alloc, bytes, failing)?;
    let mut output = Buffer::new(alloc);
    upgrade(alloc, &mut reader, &mut output)?;
    Ok(output)
}

#[test]
fn files_of_each_version_become_files_of_the_current_one(rt: HostRuntime) -> Result<(), Fail> {
    for (bytes, wanted) in FILES {
        // Two reads open the file, and one more reads its column.
        let made = again(rt.alloc(), bytes, &[3])?;
        assert_eq!(rt; made.as_slice(), wanted);
    }
    Ok(())
}

// What is answered where the read and the write with these numbers fail.
fn answer(
    alloc: Global,
    bytes: &'static [u8],
    failing_read: u64,
    failing_write: u64,
) -> Result<Result<(), ColumnarError>, ColumnarError> {
    let mut reader = opened(alloc, bytes, &[failing_read])?;
    let mut output = VecSink::new(Vec::new(alloc), vec![in alloc; failing_write]?);
    Ok(upgrade(alloc, &mut reader, &mut output))
}

#[test]
fn a_file_is_refused_for_its_bytes_and_for_faults(rt: HostRuntime) -> Result<(), Fail> {
    let alloc = rt.alloc();
    let invalid = Err(ColumnarError::InvalidData);
    assert_eq!(rt; answer(alloc, BAD, 9, 9)?, invalid);
    let read = Err(ColumnarError::ReadFault);
    assert_eq!(rt; answer(alloc, OLD, 2, 9)?, read);
    let write = Err(ColumnarError::WriteFault);
    assert_eq!(rt; answer(alloc, OLD, 9, 0)?, write);
    Ok(())
}
