//! Codecs that are chosen by hand, and lists that are written and read back.

use bytes::Bytes;
use col_common::{ColumnarError, VecSink};
use col_numbers::{
    ALL_U64_CODEC_TYPES, CodecType, NumValues, codecs_compare_as_their_codes,
    load_u64_based_column_values, serialize_and_load_u64_based_column_values,
    serialize_u64_based_column_values,
};
use col_values::ColumnValues;
use std::alloc::Global;
use std::process::Abort;
use std::test::Fail;

const LINEAR: [CodecType; 1] = [CodecType::Linear];

// The numbers from 100 on.
fn rising(alloc: Global, count: u64) -> Result<Vec<u64>, ColumnarError> {
    let mut vals = Vec::new(alloc);
    for val in 0..count {
        vals.push(val.saturating_add(100))?;
    }
    Ok(vals)
}

fn written(
    alloc: Global,
    vals: &[u64],
    codec_types: &[CodecType],
) -> Result<Vec<u8>, ColumnarError> {
    let mut sink = VecSink::new(Vec::new(alloc), Vec::new(alloc));
    serialize_u64_based_column_values::<u64, &[u64], VecSink>(
        alloc,
        &vals,
        codec_types,
        &mut sink,
    )?;
    Ok(sink.into_bytes())
}

// Statistics of the numbers 100 to 611, and the line through them.
#[test]
fn the_first_codec_of_the_least_estimate_is_written(rt: HostRuntime) -> Result<(), Fail> {
    let alloc = rt.alloc();
    let bytes = written(alloc, &rising(alloc, 512)?, &ALL_U64_CODEC_TYPES)?;
    let linear = [
        1, 0xe4, 0x81, 0x7f, 0x83, 0x00, 0x84, 0, 0, 0, 0, 0x90, 0xe4, 0,
    ];
    assert_eq!(rt; bytes.as_slice(), linear.as_slice());
    Ok(())
}

#[test]
fn lists_that_no_codec_applies_to_are_refused(rt: HostRuntime) -> Result<(), Fail> {
    let alloc = rt.alloc();
    let few = rising(alloc, 511)?;
    for (vals, codec_types) in [
        (few.as_slice(), LINEAR.as_slice()),
        (few.as_slice(), [].as_slice()),
        ([].as_slice(), [].as_slice()),
    ] {
        assert_eq!(rt;
            written(alloc, vals, codec_types).err(),
            Some(ColumnarError::NoCodec)
        );
    }
    Ok(())
}

// A list of 1, 5 and 10 that is written again from itself.
fn is_given_again(
    rt: &impl Abort,
    alloc: Global,
    numbers: &NumValues<u64>,
    bytes: &[u8],
) -> Result<(), Fail> {
    assert_eq!(rt; numbers.num_vals(), 3);
    let mut read = [0; 3];
    numbers.get_range(0, &mut read);
    assert_eq!(rt; read, [1, 5, 10]);
    let mut sink = VecSink::new(Vec::new(alloc), Vec::new(alloc));
    serialize_u64_based_column_values(alloc, numbers, &ALL_U64_CODEC_TYPES, &mut sink)?;
    assert_eq!(rt; sink.bytes(), bytes);
    Ok(())
}

#[test]
fn a_list_is_written_again_as_it_was_read(rt: HostRuntime) -> Result<(), Fail> {
    let alloc = rt.alloc();
    let bytes = written(alloc, &[1, 5, 10], &ALL_U64_CODEC_TYPES)?;
    let numbers = load_u64_based_column_values(alloc, Bytes::copy_from_slice(alloc, &bytes)?)?;
    is_given_again(&rt, alloc, &numbers, &bytes)
}

#[test]
fn numbers_of_no_value_are_invalid(rt: HostRuntime) -> Result<(), Fail> {
    let bools: Result<NumValues<bool>, ColumnarError> = serialize_and_load_u64_based_column_values(
        rt.alloc(),
        &[1u64, 5, 10].as_slice(),
        &ALL_U64_CODEC_TYPES,
    );
    assert_eq!(rt; bools.err(), Some(ColumnarError::InvalidData));
    Ok(())
}

#[test]
fn without_values_both_bounds_are_the_default(rt: HostRuntime) -> Result<(), Fail> {
    let alloc = rt.alloc();
    codecs_compare_as_their_codes();
    for codec in [CodecType::Bitpacked, CodecType::BlockwiseLinear] {
        let nothing: NumValues<i64> = serialize_and_load_u64_based_column_values(
            alloc,
            &[].as_slice(),
            &[codec],
        )?;
        assert_eq!(rt; nothing.num_vals(), 0);
        assert_eq!(rt; (nothing.min_value(), nothing.max_value()), (0, 0));
    }
    Ok(())
}
