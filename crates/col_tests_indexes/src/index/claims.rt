//! Indexes of lists of a few bytes that claim more rows than can be walked in a moment.

use bytes::Bytes;
use col_common::{ColumnarError, VInt, VecSink, serialize_bytes};
use col_index::{Set, Version, open_multivalued_index, open_optional_index};
use std::alloc::Global;
use std::test::Fail;

// A claim of the rows up to where a line from 0 on passes 0 again.
const HALF: u64 = 1 << 31;

// A step of 1 from one number to the next.
const STEP: u64 = 1 << 32;

// Appends a list of so many numbers on a line from 0 on up to the greatest.
fn push_line(
    sink: &mut VecSink,
    slope: u64,
    count: u64,
    greatest: u64,
) -> Result<(), ColumnarError> {
    serialize_bytes(sink, &[1])?;
    for number in [0, 1, greatest, count, slope, 0] {
        VInt(number).serialize(sink)?;
    }
    serialize_bytes(sink, &[0])
}

// Appends the first rows of so many.
fn push_rows(sink: &mut VecSink, num_rows: u64, count: u64) -> Result<(), ColumnarError> {
    VInt(num_rows).serialize(sink)?;
    push_line(sink, STEP, count, count.saturating_sub(1))
}

fn bytes_of(alloc: Global, sink: &VecSink) -> Result<Bytes, ColumnarError> {
    Ok(Bytes::copy_from_slice(alloc, sink.bytes())?)
}

#[test]
fn rows_on_a_line_are_opened_with_no_walk(rt: HostRuntime) -> Result<(), Fail> {
    let alloc = rt.alloc();
    for (num_rows, opens) in [(HALF - 1, false), (HALF, true), (0xffff_ffff, true)] {
        let mut sink = VecSink::new(Vec::new(alloc), Vec::new(alloc));
        push_rows(&mut sink, num_rows, HALF)?;
        let index = open_optional_index(alloc, bytes_of(alloc, &sink)?, Version::V2);
        assert_eq!(rt; index.is_ok(), opens);
        if let Ok(index) = index {
            assert_eq!(rt; index.num_non_nulls(), 1 << 31);
            assert!(rt; index.contains((1 << 31) - 1) && !index.contains(1 << 31));
        }
    }
    Ok(())
}

#[test]
fn start_offsets_on_a_line_are_opened_with_no_walk(rt: HostRuntime) -> Result<(), Fail> {
    let alloc = rt.alloc();
    // One more than rows with a value; as many as these; two for each value.
    let offsets = [
        (STEP, HALF, HALF - 1, true),
        (STEP, HALF - 1, HALF - 2, false),
        (STEP / 2, HALF, HALF / 2 - 1, false),
    ];
    for (slope, count, greatest, opens) in offsets {
        let mut sink = VecSink::new(Vec::new(alloc), Vec::new(alloc));
        push_rows(&mut sink, 0xffff_ffff, HALF - 1)?;
        let num_bytes = sink.bytes().len() as u64;
        push_line(&mut sink, slope, count, greatest)?;
        serialize_bytes(&mut sink, &num_bytes.to_le_bytes())?;
        let index = open_multivalued_index(alloc, bytes_of(alloc, &sink)?, Version::V2);
        assert_eq!(rt; index.is_ok(), opens);
    }
    Ok(())
}

#[test]
fn offsets_of_version_1_on_a_line_are_opened_with_no_walk(rt: HostRuntime) -> Result<(), Fail> {
    let alloc = rt.alloc();
    let offsets = [
        (STEP / 2, 0xffff_ffff, HALF - 1, true),
        (0, 0xffff_ffff, 0, true),
        (STEP, 0xffff_ffff, u64::MAX - 1, false),
    ];
    for (slope, count, greatest, opens) in offsets {
        let mut sink = VecSink::new(Vec::new(alloc), Vec::new(alloc));
        push_line(&mut sink, slope, count, greatest)?;
        let index = open_multivalued_index(alloc, bytes_of(alloc, &sink)?, Version::V1);
        assert_eq!(rt; index.is_ok(), opens);
        if let Ok(index) = index {
            assert_eq!(rt; index.num_docs(), 0xffff_fffe);
        }
    }
    Ok(())
}
