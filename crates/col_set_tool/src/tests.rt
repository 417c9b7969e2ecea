//! Runs over disks in memory, by examples. What is expected comes from the rules.
use crate::run::run_set;
use col_common::{MemSource, VecSink};
use col_disk::MemDisk;
use std::alloc::Global;
use std::test::Fail;

// Numbers of both types under one name, of which the first row is dropped.
const IN_CONFLICT: &str = "[\"segment\",2]\n[\"i64\",0,\"a\",-1]\n[\"i64\",1,\"a\",3]\n\
    [\"drop\",[0]]\n[\"segment\",1]\n[\"u64\",0,\"a\",18446744073709551615]\n";

// The same with a compaction behind the drop, and a lookup.
const AGREEING: &str = "[\"segment\",2]\n[\"i64\",0,\"a\",-1]\n[\"i64\",1,\"a\",3]\n\
    [\"drop\",[0]]\n[\"compact\"]\n[\"segment\",1]\n[\"u64\",0,\"a\",18446744073709551615]\n\
    [\"find\",\"a\",\"i64\",0,9]\n";

// Lookups before and behind a drop; places are those of the rows that are alive.
const LOOKUPS: &str = "[\"segment\",3]\n[\"str\",0,\"t\",\"x\"]\n[\"str\",2,\"t\",\"y\"]\n\
    [\"find\",\"t\",\"str\",\"x\",\"y\"]\n[\"drop\",[0]]\n[\"find\",\"t\",\"str\",\"x\",\"y\"]\n\
    [\"find\",\"t\",\"u64\",0,9]\n";

// A disk's bytes, the calls of it that fail and a script; the status, and the report.
const RUNS: &[(&[u8], &[u64], &str, u8, &str)] = &[
    (b"", &[], "", 0, "[\"rows\",0]\n"),
    (b"\x01", &[], "", 0, "[\"rows\",0]\n"),
    (b"\x01\x03", &[], "", 6, ""),
    (b"\x01\x03", &[], "[]", 20, ""),
    (b"", &[], "[\"drop\",[0]]", 7, ""),
    (b"", &[], "[\"u64\",0,\"a\",1]", 20, ""),
    (
        b"",
        &[],
        "[\"segment\",0]\n[\"compact\"]\n[\"type\",\"a\",\"u64\"]",
        20,
        "",
    ),
    (
        b"",
        &[],
        "[\"segment\",1]\n[\"u64\",1,\"a\",1]\n[\"compact\"]",
        16,
        "",
    ),
    (b"", &[], IN_CONFLICT, 11, ""),
    (
        b"",
        &[],
        AGREEING,
        0,
        "[\"find\",\"a\",\"i64\",[0]]\n[\"rows\",2]\n",
    ),
    (
        b"",
        &[],
        LOOKUPS,
        0,
        "[\"find\",\"t\",\"str\",[0,2]]\n[\"find\",\"t\",\"str\",[1]]\n\
            [\"find\",\"t\",\"u64\",[]]\n[\"rows\",2]\n",
    ),
    (b"", &[7], IN_CONFLICT, 5, ""),
];

#[test]
fn a_run_has_its_status_and_its_report(rt: HostRuntime) -> Result<(), Fail> {
    let alloc = rt.alloc();
    for (disk, failing, script, status, report) in RUNS {
        let disk = MemDisk::new(alloc, disk.to_vec(alloc)?, failing.to_vec(alloc)?)?;
        let (ended, printed, _) = left_by(alloc, disk, script)?;
        assert_eq!(rt; ended, *status);
        assert!(rt; printed.as_slice() == report.as_bytes());
    }
    Ok(())
}

// The calls are a sync, the gate's write and sync; the change's three writes and their sync; and
// the write that opens the gate.
#[test]
fn a_run_that_is_cut_short_leaves_the_rows_of_some_steps(rt: HostRuntime) -> Result<(), Fail> {
    let alloc = rt.alloc();
    let disk = MemDisk::new(alloc, Vec::new(alloc), [7].to_vec(alloc)?)?;
    let (ended, _, disk) = left_by(alloc, disk, IN_CONFLICT)?;
    assert_eq!(rt; ended, 5);
    let (again, printed, _) = left_by(alloc, disk, "")?;
    assert_eq!(rt; again, 0);
    let rows = printed.as_slice();
    assert!(rt; rows == "[\"rows\",0]\n".as_bytes() || rows == "[\"rows\",2]\n".as_bytes());
    Ok(())
}

// The status of a run, its report, and the disk.
fn left_by(alloc: Global, disk: MemDisk, script: &str) -> Result<(u8, Vec<u8>, MemDisk), Fail> {
    let mut script = MemSource::new(script.as_bytes().to_vec(alloc)?, Vec::new(alloc));
    let mut output = VecSink::new(Vec::new(alloc), Vec::new(alloc));
    let mut report = VecSink::new(Vec::new(alloc), Vec::new(alloc));
    let (status, disk) = run_set(alloc, disk, &mut script, &mut output, &mut report);
    Ok((status, report.into_bytes(), disk))
}
