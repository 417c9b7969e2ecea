//! Addresses by examples: worked rows, gaps, and a list that is read as codes.
use bytes::Bytes;
use col_common::{Buffer, ColumnarError};
use col_compact::{
    BlankRange, CompactHit, CompactSpace, CompactSpaceCompressor, CompactSpaceU64Accessor,
    IPCodecParams, U128FastFieldCodecType, U128Header, equal_gaps_tie, gaps_always_compare,
    gaps_are_ordered, get_compact_space, kinds_compare_as_one, open_u128_as_compact_u64,
};
use col_values::ColumnValues;
use std::alloc::Global;
use std::cmp::Ordering;
use std::collections::BTreeSet;
use std::process::Abort;
use std::test::Fail;

// Addresses 2 and 4: the header, codes 1 and 3 of two bits, the footer, and its length.
const TWO: [u8; 26] = [
    0x82, 0x01, 0x0d, 0, 0, 0, 0, 0, 0, 0, 0, 0x82, 0x84, 0x82, 0x02, 0x81, 0x82, 0x82, 0x0f, 0, 0,
    0, 0, 0, 0, 0,
];

// Where the header of `TWO` ends, and where its footer begins and ends.
const CODES_AT: usize = 2;

const FOOTER_AT: usize = 3;

const LEN_AT: usize = 18;

fn space_of(alloc: Global, values: &[u128], cost: usize) -> Result<CompactSpace, Fail> {
    let mut set = BTreeSet::new(alloc);
    for value in values {
        set.insert(*value)?;
    }
    Ok(get_compact_space(alloc, &set, 12, cost)?)
}

fn num_codes(alloc: Global, values: &[u128], cost: usize) -> Result<u32, Fail> {
    Ok(space_of(alloc, values, cost)?.amplitude_compact_space())
}

fn gaps_are_seen<R: Abort>(rt: &R, space: &CompactSpace) {
    assert_eq!(rt; space.amplitude_compact_space(), 17);
    assert_eq!(rt; space.u128_to_compact(3), Ok(2));
    assert_eq!(rt; space.u128_to_compact(100), Err(1));
}

#[test]
fn sets_of_addresses_have_the_spaces_worked_out_by_hand(rt: HostRuntime) -> Result<(), Fail> {
    let alloc = rt.alloc();
    let values = [
        2, 4, 1000, 1001, 1002, 1003, 1004, 1005, 1008, 1010, 1012, 1260,
    ];
    gaps_are_seen(&rt, &space_of(alloc, &values, 11)?);
    assert_eq!(rt; num_codes(alloc, &[100_000, 1_000_000], 1)?, 2);
    assert!(rt; num_codes(alloc, &[0, 1 << 31, 1 << 32, 3 << 31, 1 << 33], 36)? < u32::MAX);
    Ok(())
}

#[test]
fn a_limit_that_is_just_enough_is_met(rt: HostRuntime) -> Result<(), Fail> {
    let alloc = rt.alloc();
    let vals = [1u128, 3, 100].as_slice();
    assert!(rt; CompactSpaceCompressor::train_with_limit(alloc, &vals, 3).is_err());
    let trained = CompactSpaceCompressor::train_with_limit(alloc, &vals, 4)?;
    assert_eq!(rt; trained.num_vals(), 3);
    let mut sink = Buffer::new(alloc);
    trained.compress_into(alloc, &vals, &mut sink)?;
    // Codes 1, 3 and 4 of three bits stand in front of the footer.
    let codes = [0b00_011_001, 0b1];
    assert!(rt; sink.as_slice().starts_with(codes.as_slice()));
    Ok(())
}

#[test]
fn gaps_come_by_size_and_start_and_have_three_numbers(rt: HostRuntime) -> Result<(), Fail> {
    let short = BlankRange::try_from(100u128..=110)?;
    let early = BlankRange::try_from(0u128..=10)?;
    assert_eq!(rt; short.blank_size(), 11);
    assert_eq!(rt; gaps_are_ordered(&short, &early), Ordering::Greater);
    assert_eq!(rt; gaps_always_compare(&early, &short), Some(Ordering::Less));
    assert!(rt; equal_gaps_tie(&early, &early));
    kinds_compare_as_one();
    assert!(rt; BlankRange::try_from(7u128..=8).is_err());
    Ok(())
}

fn codes_are_found(
    rt: &impl Abort,
    alloc: Global,
    list: &CompactSpaceU64Accessor,
) -> Result<(), Fail> {
    let mut hits = Vec::new(alloc);
    for (low, high, found) in [
        (0, u64::MAX, [0, 1].as_slice()),
        (0, 0, &[]),
        (4_294_967_297, 4_294_967_299, &[]),
    ] {
        list.get_row_ids_for_value_range(low..=high, 0..2, &mut hits)?;
        assert_eq!(rt; hits.as_slice(), found);
    }
    assert_eq!(rt; list.u128_to_next_compact(0), CompactHit::Next(1));
    assert_eq!(rt; list.u128_to_next_compact(3), CompactHit::Exact(2));
    assert_eq!(rt; list.u128_to_next_compact(5), CompactHit::AfterLast);
    assert_eq!(rt; list.max_code(), 3);
    Ok(())
}

#[test]
fn codes_are_looked_up_by_all_ends_of_64_bits(rt: HostRuntime) -> Result<(), Fail> {
    let list = open_u128_as_compact_u64(rt.alloc(), Bytes::copy_from_slice(rt.alloc(), &TWO)?)?;
    codes_are_found(&rt, rt.alloc(), &list)
}

// A header, its codec, and parameters, one behind another.
fn written(alloc: Global, params: &IPCodecParams) -> Result<Buffer, ColumnarError> {
    let mut sink = Buffer::new(alloc);
    let codec_type = U128FastFieldCodecType::CompactSpace;
    let header = U128Header {
        num_vals: 2,
        codec_type,
    };
    header.serialize(&mut sink)?;
    codec_type.serialize(&mut sink)?;
    params.serialize(&mut sink)?;
    Ok(sink)
}

#[test]
fn parts_are_written_as_they_are_read(rt: HostRuntime) -> Result<(), Fail> {
    let alloc = rt.alloc();
    let list = CompactSpaceU64Accessor::open(
        alloc,
        Bytes::copy_from_slice(alloc, &TWO[CODES_AT..])?,
    )?;
    assert_eq!(rt; list.max_code(), 3);
    let mut footer = &TWO[FOOTER_AT..];
    let params = IPCodecParams::deserialize(alloc, &mut footer)?;
    let sink = written(alloc, &params)?;
    assert!(rt; sink.as_slice().starts_with(&[0x82, 0x01, 0x01]));
    assert!(rt; sink.as_slice().ends_with(&TWO[FOOTER_AT..LEN_AT]));
    assert_eq!(rt; sink.as_slice().len(), 18);
    Ok(())
}
