use crate::{Journal, next_change, ready};
use col_common::{ColumnarError, HandleError};
use col_disk::MemDisk;
use std::alloc::Global;
use std::test::Fail;

#[test]
fn one_byte_stands_for_no_change(rt: HostRuntime) -> Result<(), Fail> {
    let alloc = rt.alloc();
    let mut disk = MemDisk::new(alloc, [1].to_vec(alloc)?, Vec::new(alloc))?;
    assert!(rt; ready(&mut disk).is_ok());
    assert!(rt; matches!(next_change(&mut disk, alloc, 0), Ok(None)));
    Ok(())
}

#[test]
fn a_change_that_is_cut_short_is_refused(rt: HostRuntime) -> Result<(), Fail> {
    let alloc = rt.alloc();
    let mut disk = MemDisk::new(alloc, [1, 3].to_vec(alloc)?, Vec::new(alloc))?;
    assert!(rt; ready(&mut disk).is_ok());
    let found = next_change(&mut disk, alloc, 0);
    assert!(rt; matches!(found, Err(ColumnarError::InvalidData)));
    Ok(())
}

// Adds a change to an empty disk that fails at one call, and tells whether it is found again.
fn is_found_again(alloc: Global, failing: u64) -> Result<bool, Fail> {
    let mut disk = MemDisk::new(alloc, Vec::new(alloc), [failing].to_vec(alloc)?)?;
    ready(&mut disk)?;
    let mut journal = Journal::at(disk, 0);
    if journal.append(0, &[7]) != Err(HandleError::Failed) {
        return Ok(false);
    }
    let mut again = journal.disk;
    ready(&mut again)?;
    match next_change(&mut again, alloc, 0)? {
        Some((found, _)) => Ok(found.kind == 0 && found.bytes.as_slice() == [7].as_slice()),
        None => Ok(false),
    }
}

// The calls are a sync, the gate's write and sync; the change's three writes and their sync; the
// write that opens the gate, and its sync.
#[test]
fn a_change_whose_disk_fails_is_absent_or_whole(rt: HostRuntime) -> Result<(), Fail> {
    for (failing, found) in [
        (3, false),
        (4, false),
        (5, false),
        (6, false),
        (7, false),
        (8, true),
    ] {
        assert_eq!(rt; is_found_again(rt.alloc(), failing)?, found);
    }
    Ok(())
}
