//! Four files, each cut and changed at each byte.
use crate::tests::{SOUND, VERSION_1, left_by};
use bytes::Bytes;
use std::alloc::{AllocError, Global};
use std::test::Fail;

// The u64 column "a" of the rows 10 and 20.
const TEN_AND_TWENTY: &[u8] = b"\0\0\x8a\x8a\x81\x82\x02\x01\0\0\0\0\0\0\0\
\x81\x83a\0\x01\x8f\x06\0\0\0\0\0\0\0\x02\0\0\0\x02\0\0\0\x02qwB";

// The str column "s" of three rows without a value.
const THREE_WITHOUT: &[u8] = b"\0\0\0\0\x01\x83\0\x80\x81\x80\x80\0\x80\x81\x80\x80\
\x07\0\0\0\0\0\0\0\x04\0\0\0\x81\x83s\0\x04\x9c\x06\0\0\0\0\0\0\0\x03\0\0\0\x02\0\0\0\x02qwB";

// The u64 column "a" of a hundred rows, with 7 in the first forty, which are a run.
const FORTY_SEVENS: &[u8] = b"\x01\x01\xe4\0\x80\x81\x80\x81\0\xa8\x81\x80\x81\
\x05\0\0\0\0\0\0\0\0\x87\x81\x80\xa8\x15\0\0\0\0\0\0\0\
\x81\x83a\0\x01\xa2\x06\0\0\0\0\0\0\0\x64\0\0\0\x03\0\0\0\x02qwB";

// Files of versions 2, 1, 2 and 3, and the bytes whose lowest bit may be turned: the least number,
// the divisor, the name, the type, and the version, since a Full index is the same in the next one;
// the least number, the name and the type; the name; the run's start, the least number, the name
// and the type.
pub(crate) const FILES: [(&[u8], &[usize]); 4] = [
    (TEN_AND_TWENTY, &[2, 3, 17, 19, 33]),
    (VERSION_1, &[8, 23, 25]),
    (THREE_WITHOUT, &[30]),
    (FORTY_SEVENS, &[4, 22, 36, 38]),
];

// The status of a merge of a file alone.
pub(crate) fn merged(alloc: Global, file: &[u8]) -> Result<u8, AllocError> {
    let input = Bytes::copy_from_slice(alloc, file)?;
    let left = left_by(alloc, &["merge", "out", "in"], input, "", SOUND)?;
    Ok(left.status)
}

// The bytes of a file of which some bits of a byte are turned.
pub(crate) fn turned(
    alloc: Global,
    file: &[u8],
    at: usize,
    bits: u8,
) -> Result<Vec<u8>, AllocError> {
    let mut bytes = file.to_vec(alloc)?;
    if let Some(byte) = bytes.get_mut(at) {
        *byte ^= bits;
    }
    Ok(bytes)
}

#[test]
fn files_that_are_cut_or_changed_are_refused(rt: HostRuntime) -> Result<(), Fail> {
    let alloc = rt.alloc();
    for (file, sound) in FILES {
        for at in 0..file.len() {
            assert_eq!(rt; merged(alloc, &file[..at])?, 6, "the first {at} bytes");
            let wanted = if sound.contains(&at) { 0 } else { 6 };
            let changed = merged(alloc, &turned(alloc, file, at, 1)?)?;
            assert_eq!(rt; changed, wanted, "byte {at}");
        }
    }
    Ok(())
}
