//! Four files under `check`, with each single bit turned.
use crate::tests::files::{FILES, merged, turned};
use crate::tests::{Left, SOUND, left_by};
use bytes::Bytes;
use std::alloc::{AllocError, Global};
use std::test::Fail;

// Each bit of a byte.
const BITS: [u8; 8] = [1, 2, 4, 8, 16, 32, 64, 128];

fn checked(alloc: Global, file: &[u8]) -> Result<Left, AllocError> {
    left_by(
        alloc,
        &["check", "in"],
        Bytes::copy_from_slice(alloc, file)?,
        "",
        SOUND,
    )
}

// The statuses of a merge and of a check of a file of one column, and whether the check tells that
// this is none.
fn told(alloc: Global, file: &[u8]) -> Result<(u8, u8, bool), AllocError> {
    let left = checked(alloc, file)?;
    Ok((
        merged(alloc, file)?,
        left.status,
        left.report.ends_with(b",false]\n"),
    ))
}

#[test]
fn a_check_tells_which_column_a_merge_refuses(rt: HostRuntime) -> Result<(), Fail> {
    let alloc = rt.alloc();
    for (file, _) in FILES {
        for at in 0..file.len() {
            for bits in BITS {
                let told = told(alloc, &turned(alloc, file, at, bits)?)?;
                let agree = told == (0, 0, false) || told == (6, 6, false) || told == (6, 0, true);
                assert!(rt; agree, "bits {bits} of byte {at}: {told:?}");
            }
        }
    }
    Ok(())
}
