//! Calls of the outside that fail, each by itself.
use crate::tests::{Left, NEVER, VERSION_1, left_by};
use bytes::Bytes;
use std::alloc::{AllocError, Global};
use std::test::Fail;

// A row behind those of the input.
const SCRIPT: &str = "[\"segment\",1]\n[\"type\",\"a\",\"u64\"]\n[\"u64\",0,\"a\",5]\n";

// The merged file: the rows 7 and 8, nothing, 9, and 5.
const FILE: &[u8] = b"\x02\0\x84\0\x80\x81\x83\x83\x38\0\x80\x81\x84\x84\xd0\x08\
\x08\0\0\0\0\0\0\0\0\x85\x81\x84\x84\x1a\x01\x18\0\0\0\0\0\0\0\
\x81\x83a\0\x01\xa7\x06\0\0\0\0\0\0\0\x04\0\0\0\x03\0\0\0\x02qwB";

const REPORT: &str = "[\"rows\",4]\n[\"column\",\"a\",\"u64\",\"mult\",4]\n\
[\"row\",0,[7,8]]\n[\"row\",2,[9]]\n[\"row\",3,[5]]\n";

// Which call of the input, the script, the output and the report fails, and what that leaves: the
// status, how much of the file, and how much of the report. A write that fails leaves its first
// half.
const CASES: [([u64; 4], u8, usize, usize); 13] = [
    ([0, NEVER, NEVER, NEVER], 4, 0, 0),
    ([1, NEVER, NEVER, NEVER], 4, 0, 0),
    ([2, NEVER, NEVER, NEVER], 4, 0, 0),
    ([4, NEVER, NEVER, NEVER], 0, 65, 85),
    ([NEVER, 0, NEVER, NEVER], 4, 0, 0),
    ([NEVER, 1, NEVER, NEVER], 4, 0, 0),
    ([NEVER, 2, NEVER, NEVER], 0, 65, 85),
    ([NEVER, NEVER, 0, NEVER], 5, 32, 0),
    ([NEVER, NEVER, 1, NEVER], 0, 65, 85),
    ([NEVER, NEVER, NEVER, 0], 5, 65, 42),
    ([NEVER, NEVER, NEVER, 1], 0, 65, 85),
    ([0, NEVER, 0, 0], 4, 0, 0),
    ([NEVER, NEVER, 0, 0], 5, 32, 0),
];

// The report of a check of the input.
const CHECKED: &str = "[\"rows\",3]\n[\"entry\",\"a\",\"u64\",true]\n";

// The same of a check, which reads no script and writes no file: the status, and how much of the
// report.
const CHECKS: [([u64; 4], u8, usize); 7] = [
    ([0, NEVER, NEVER, NEVER], 4, 0),
    ([1, NEVER, NEVER, NEVER], 4, 0),
    ([2, NEVER, NEVER, NEVER], 4, 0),
    ([4, NEVER, NEVER, NEVER], 0, 36),
    ([NEVER, 0, 0, NEVER], 0, 36),
    ([NEVER, NEVER, NEVER, 0], 5, 18),
    ([NEVER, NEVER, NEVER, 1], 0, 36),
];

fn left(alloc: Global, words: &[&str], failing: [u64; 4]) -> Result<Left, AllocError> {
    left_by(alloc, words, Bytes::from_static(VERSION_1), SCRIPT, failing)
}

// Whether bytes are so many of the first ones of others.
fn is_front(bytes: &[u8], whole: &[u8], count: usize) -> bool {
    bytes.len() == count && whole.starts_with(bytes)
}

// Whether the input, whole, was handed back.
fn is_handed_back(left: &Left) -> bool {
    match &left.input {
        Some(bytes) => bytes.as_slice() == VERSION_1,
        None => false,
    }
}

#[test]
fn a_fault_leaves_what_was_written_before_and_hands_the_input_back(
    rt: HostRuntime,
) -> Result<(), Fail> {
    for (failing, status, file, report) in CASES {
        let left = left(rt.alloc(), &["merge", "out", "in"], failing)?;
        assert_eq!(rt; left.status, status, "{failing:?}");
        assert!(rt; is_handed_back(&left), "{failing:?}");
        let has_file = is_front(&left.output, FILE, file);
        let has_report = is_front(&left.report, REPORT.as_bytes(), report);
        assert!(rt; has_file && has_report, "{failing:?}");
    }
    Ok(())
}

#[test]
fn a_fault_of_a_check_leaves_a_front_of_the_report_and_hands_the_input_back(
    rt: HostRuntime,
) -> Result<(), Fail> {
    for (failing, status, report) in CHECKS {
        let left = left(rt.alloc(), &["check", "in"], failing)?;
        assert_eq!(rt; left.status, status, "{failing:?}");
        assert!(rt; is_handed_back(&left), "{failing:?}");
        let has_report = is_front(&left.report, CHECKED.as_bytes(), report);
        assert!(rt; left.output.is_empty() && has_report, "{failing:?}");
    }
    Ok(())
}
