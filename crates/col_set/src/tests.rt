//! Sets of segments, by examples.
use crate::SegmentSet;
use col_common::{ColumnarError, VecSink};
use col_disk::{Disk, DiskOnFile, MemDisk};
use col_questions::QueryValue;
use col_types::ColumnType;
use std::alloc::Global;
use std::test::Fail;

// A file of the u64 column "a" of the rows 10 and 20.
const TEN_AND_TWENTY: &[u8] = b"\0\0\x8a\x8a\x81\x82\x02\x01\0\0\0\0\0\0\0\
    \x81\x83a\0\x01\x8f\x06\0\0\0\0\0\0\0\x02\0\0\0\x02\0\0\0\x02qwB";

// Gates that are closed and open, a record that is cut short, a drop of no ids, one of half an id,
// and a record of no kind; and how many rows there are.
const DISKS: &[(&[u8], Option<u32>)] = &[
    (b"", Some(0)),
    (b"\x01", Some(0)),
    (b"\0\x03", Some(0)),
    (b"\x01\x03", None),
    (b"\x01\x01\0\0\0\0\0\0\0\0\0", Some(0)),
    (b"\x01\x01\x02\0\0\0\0\0\0\0\0\0\0", None),
    (b"\x01\x03\0\0\0\0\0\0\0\0\0", None),
];

// A set over a disk of which the calls with these numbers fail.
fn opened(alloc: Global, bytes: &[u8], failing: &[u64]) -> Result<SegmentSet<MemDisk>, Fail> {
    let disk = MemDisk::new(alloc, bytes.to_vec(alloc)?, failing.to_vec(alloc)?)?;
    match SegmentSet::open(alloc, disk) {
        Ok(set) => Ok(set),
        Err((_, error)) => Err(error.into()),
    }
}

// How many rows the set of a disk has, if the disk holds one.
fn rows_of<D: Disk + Drop>(alloc: Global, disk: D) -> Option<u32> {
    match SegmentSet::open(alloc, disk) {
        Ok(set) => Some(set.num_rows()),
        Err(_) => None,
    }
}

#[test]
fn the_bytes_of_a_disk_are_a_set_or_none(rt: HostRuntime) -> Result<(), Fail> {
    let alloc = rt.alloc();
    for (bytes, rows) in DISKS {
        let disk = MemDisk::new(alloc, bytes.to_vec(alloc)?, Vec::new(alloc))?;
        assert_eq!(rt; rows_of(alloc, disk), *rows);
    }
    Ok(())
}

// What finds rows of 10, 20, 10 and 20, of which the first is dropped: a name, a type and two ends,
// and the places.
const LOOKUPS: &[(&str, ColumnType, i128, i128, &[u32])] = &[
    ("a", ColumnType::U64, 10, 20, &[0, 1, 2]),
    ("a", ColumnType::I64, 10, 20, &[0, 1, 2]),
    ("a", ColumnType::I64, 10, 10, &[1]),
    ("a", ColumnType::U64, i128::MIN, i128::MAX, &[0, 1, 2]),
    ("a", ColumnType::U64, -5, 19, &[1]),
    ("a", ColumnType::U64, 11, i128::MAX, &[0, 2]),
    ("a", ColumnType::U64, i128::MIN, -1, &[]),
    ("a", ColumnType::U64, i128::MAX, i128::MAX, &[]),
    ("a", ColumnType::U64, 20, 10, &[]),
    ("a", ColumnType::DateTime, 10, 20, &[]),
    ("a", ColumnType::Str, 10, 20, &[]),
    ("b", ColumnType::U64, 10, 20, &[]),
];

#[test]
fn rows_are_found_by_values(rt: HostRuntime) -> Result<(), Fail> {
    let alloc = rt.alloc();
    let mut set = opened(alloc, &[], &[])?;
    assert!(rt; !set.failed());
    assert!(rt; set.append(TEN_AND_TWENTY.to_vec(alloc)?).is_ok());
    assert!(rt; !set.failed());
    assert!(rt; set.append(TEN_AND_TWENTY.to_vec(alloc)?).is_ok());
    assert!(rt; !set.failed());
    assert!(rt; set.drop_rows(&[0]).is_ok());
    for (name, column_type, lo, hi, expected) in LOOKUPS {
        let found = found_in(alloc, &mut set, name, *column_type, *lo, *hi)?;
        assert_eq!(rt; found.as_slice(), *expected);
    }
    Ok(())
}

// The places of a lookup by numbers.
fn found_in(
    alloc: Global,
    set: &mut SegmentSet<MemDisk>,
    name: &str,
    column_type: ColumnType,
    lo: i128,
    hi: i128,
) -> Result<Vec<u32>, Fail> {
    let lo = QueryValue::Num(lo);
    let hi = QueryValue::Num(hi);
    let mut places = Vec::new(alloc);
    set.find(name, column_type, &lo, &hi, &mut places)?;
    Ok(places)
}

#[test]
fn a_set_is_found_again_on_its_disk(rt: HostRuntime) -> Result<(), Fail> {
    let alloc = rt.alloc();
    let mut set = opened(alloc, &[], &[])?;
    assert!(rt; !set.failed());
    assert!(rt; set.append(TEN_AND_TWENTY.to_vec(alloc)?).is_ok());
    assert!(rt; !set.failed());
    assert!(rt; set.append(TEN_AND_TWENTY.to_vec(alloc)?).is_ok());
    assert!(rt; !set.failed());
    let refused = set.append([7].to_vec(alloc)?);
    assert!(rt; matches!(refused, Err(ColumnarError::InvalidData)));
    assert!(rt; !set.failed());
    assert!(rt; matches!(set.drop_rows(&[1, 1]), Err(ColumnarError::BadOrder)));
    assert!(rt; !set.failed());
    assert!(rt; set.drop_rows(&[0, 1, 3]).is_ok());
    assert_eq!(rt; set.num_rows(), 1);
    let mut again = match SegmentSet::open(alloc, set.into_disk()) {
        Ok(set) => set,
        Err((_, error)) => return Err(error.into()),
    };
    assert_eq!(rt; again.num_rows(), 1);
    let mut sink = VecSink::new(Vec::new(alloc), Vec::new(alloc));
    assert!(rt; !again.failed());
    assert!(rt; again.write(&mut sink).is_ok());
    assert!(rt; sink.bytes().len() < TEN_AND_TWENTY.len() + 1);
    assert_eq!(rt; rows_of(alloc, again.into_disk()), Some(1));
    Ok(())
}

// The calls are a sync, the gate's write and sync; the change's three writes and their sync; and
// the write that opens the gate.
#[test]
fn a_gate_that_fails_to_open_ends_the_changes(rt: HostRuntime) -> Result<(), Fail> {
    let alloc = rt.alloc();
    let mut set = opened(alloc, &[], &[7])?;
    assert!(rt; !set.failed());
    let stopped = set.append(TEN_AND_TWENTY.to_vec(alloc)?);
    assert!(rt; matches!(stopped, Err(ColumnarError::WriteFault)));
    assert!(rt; set.failed());
    let rows = rows_of(alloc, set.into_disk());
    assert!(rt; rows == Some(0) || rows == Some(2));
    Ok(())
}

#[test]
fn a_set_is_kept_in_a_file(rt: HostRuntime) -> Result<(), Fail> {
    let alloc = rt.alloc();
    let mut set = match SegmentSet::open(alloc, DiskOnFile::open(&rt, "set")?) {
        Ok(set) => set,
        Err((_, error)) => return Err(error.into()),
    };
    assert!(rt; !set.failed());
    assert!(rt; set.append(TEN_AND_TWENTY.to_vec(alloc)?).is_ok());
    assert!(rt; !set.failed());
    assert!(rt; set.drop_rows(&[1]).is_ok());
    assert_eq!(rt; rows_of(alloc, DiskOnFile::open(&rt, "set")?), Some(1));
    Ok(())
}
