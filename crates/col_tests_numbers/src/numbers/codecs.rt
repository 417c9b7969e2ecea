//! Lists under each codec, written and read, by bytes that are worked out by hand.

use super::lists::{random_looking, stepped};
use col_common::VecSink;
use col_numbers::{
    ALL_U64_CODEC_TYPES, CodecType, U64Values, serialize_and_load_u64_values,
    serialize_estimated_values,
};
use col_values::ColumnValues;
use std::alloc::Global;
use std::process::Abort;
use std::test::Fail;

// A codec, the first value, the step and the count of a list, and its estimate and bytes.
const WRITTEN: [(CodecType, u64, u64, u64, u64, &[u8]); 6] = [
    (
        CodecType::Bitpacked,
        0,
        0,
        0,
        4,
        &[0, 0x80, 0x81, 0x80, 0x80],
    ),
    (
        CodecType::Bitpacked,
        10,
        10,
        2,
        5,
        &[0, 0x8a, 0x8a, 0x81, 0x82, 2],
    ),
    (
        CodecType::Linear,
        100,
        1,
        512,
        13,
        &[
            1, 0xe4, 0x81, 0x7f, 0x83, 0, 0x84, 0, 0, 0, 0, 0x90, 0xe4, 0,
        ],
    ),
    (
        CodecType::BlockwiseLinear,
        100,
        1,
        512,
        21,
        &[
            2, 0xe4, 0x81, 0x7f, 0x83, 0, 0x84, 0, 0, 0, 0, 0x90, 0x80, 0, 7, 0, 0, 0, 0, 0, 0, 0,
        ],
    ),
    // Estimates are of the values, less the bits of the divisor: 8 + 4 + 7 - 2 * 10 / 8.
    (
        CodecType::BlockwiseLinear,
        0,
        4,
        10,
        17,
        &[
            2, 0x80, 0x84, 0x89, 0x8a, 0, 0, 0, 0, 0x90, 0x80, 0, 7, 0, 0, 0, 0, 0, 0, 0,
        ],
    ),
    (
        CodecType::BlockwiseLinear,
        0,
        4,
        512,
        0,
        &[
            2, 0x80, 0x84, 0x7f, 0x83, 0, 0x84, 0, 0, 0, 0, 0x90, 0x80, 0, 7, 0, 0, 0, 0, 0, 0, 0,
        ],
    ),
];

// The first value, the step and the count of lists that each codec takes.
const LISTS: [(u64, u64, u64, &str); 6] = [
    (100, 7, 1100, "rising"),
    (1 << 40, u64::MAX - 2, 1030, "falling"),
    (u64::MAX - 300, 1, 600, "past the greatest number"),
    (u64::MAX, 0, 513, "the greatest number"),
    (5, 1 << 63, 1500, "two far apart"),
    (0, (1 << 55) + 1, 700, "many far apart"),
];

// Writes a list under a codec, and compares the estimate and the bytes.
fn takes(
    rt: &impl Abort,
    alloc: Global,
    vals: &[u64],
    codec: CodecType,
    estimate: u64,
    bytes: &[u8],
) -> Result<(), Fail> {
    let mut sink = VecSink::new(Vec::new(alloc), Vec::new(alloc));
    let told = serialize_estimated_values::<u64, &[u64], VecSink>(
        alloc,
        &vals,
        &[codec],
        &mut sink,
    )?;
    assert_eq!(rt; told, estimate);
    assert_eq!(rt; sink.bytes(), bytes);
    Ok(())
}

// Compares each value, and some that may lie in two blocks.
fn equals(rt: &impl Abort, reader: &U64Values, vals: &[u64], what: &str) {
    assert_eq!(rt; reader.num_vals() as usize, vals.len(), "{what}");
    for (row, val) in vals.iter().enumerate() {
        assert_eq!(rt; reader.get_val(row as u32), *val, "{what} in row {row}");
    }
    if vals.len() > 513 {
        let mut part = [0; 4];
        reader.get_range(510, &mut part);
        assert_eq!(rt; part.as_slice(), &vals[510..514], "{what} in two blocks");
        let (last, first) = reader.get_pair(511);
        assert_eq!(rt; last, vals[511], "{what} at a block's end");
        assert_eq!(rt; first, vals[512], "{what} at the next one's start");
    }
}

// Writes a list under a codec, reads it, and finds two of its rows.
fn reads_back(
    rt: &impl Abort,
    alloc: Global,
    vals: &[u64],
    codec: CodecType,
    what: &str,
) -> Result<(), Fail> {
    let reader = serialize_and_load_u64_values::<u64, &[u64]>(alloc, &vals, &[codec])?;
    equals(rt, &reader, vals, what);
    let mut hits = Vec::new(alloc);
    reader.get_row_ids_for_value_range(0..=u64::MAX, 1..3, &mut hits)?;
    assert_eq!(rt; hits.as_slice(), [1, 2].as_slice(), "{what}");
    Ok(())
}

#[test]
fn lists_are_written_in_their_one_form(rt: HostRuntime) -> Result<(), Fail> {
    let alloc = rt.alloc();
    for (codec, first, step, count, estimate, bytes) in WRITTEN {
        let vals = stepped(alloc, first, step, count)?;
        takes(&rt, alloc, &vals, codec, estimate, bytes)?;
    }
    Ok(())
}

#[test]
fn what_is_written_reads_back(rt: HostRuntime) -> Result<(), Fail> {
    let alloc = rt.alloc();
    for codec in ALL_U64_CODEC_TYPES {
        for (first, step, count, what) in LISTS {
            let vals = stepped(alloc, first, step, count)?;
            reads_back(&rt, alloc, &vals, codec, what)?;
        }
        let vals = random_looking(alloc, 1500)?;
        reads_back(&rt, alloc, &vals, codec, "random-looking")?;
    }
    Ok(())
}
