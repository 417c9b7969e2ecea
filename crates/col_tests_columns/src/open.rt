//! Columns that are opened as numbers, of bytes that were worked out by hand from the format.
use bytes::Bytes;
use col_common::ColumnarError;
use col_dynamic::ColumnType;
use col_dynamic_open::{LenientColumn, open_column_u64_lenient};
use col_index::CURRENT_VERSION;
use std::alloc::Global;
use std::test::Fail;

// The index Full, numbers, and the index's length.
const TEN_AND_TWENTY: &[u8] = b"\0\0\x8a\x8a\x81\x82\x02\x01\0\0\0\0\0\0\0";

const ONE_AND_ZERO: &[u8] = b"\0\0\x80\x81\x81\x82\x01\x01\0\0\0\0\0\0\0";

// The index Full, the addresses 2 and 4, and the index's length.
const TWO_AND_FOUR: &[u8] = &[
    0, 0x82, 0x01, 0x0d, 0, 0, 0, 0, 0, 0, 0, 0, 0x82, 0x84, 0x82, 0x02, 0x81, 0x82, 0x82, 0x0f, 0,
    0, 0, 0, 0, 0, 0, 1, 0, 0, 0, 0, 0, 0, 0,
];

// The terms "a" and "b", a Full column of the ordinals 1 and 0, and the dictionary's length.
const B_AND_A: &[u8] = b"\x02\0\0\0\x01\0\0\0\x02\0\0\0ab\
\0\0\x80\x81\x81\x82\x01\x01\0\0\0\0\0\0\0\x0e\0\0\0";

// The first values of a column of two rows.
fn two_rows(column: &LenientColumn) -> Result<(Option<u64>, Option<u64>), ColumnarError> {
    if column.num_docs() != 2 {
        return Err(ColumnarError::InvalidData);
    }
    Ok((column.first(0), column.first(1)))
}

fn numbers(
    alloc: Global,
    column_type: ColumnType,
    bytes: &'static [u8],
) -> Result<(Option<u64>, Option<u64>), ColumnarError> {
    let bytes = Bytes::from_static(bytes);
    two_rows(&open_column_u64_lenient(alloc, column_type, bytes, CURRENT_VERSION, 2)?)
}

#[test]
fn any_column_is_opened_as_numbers(rt: HostRuntime) -> Result<(), Fail> {
    let alloc = rt.alloc();
    let columns = [
        (ColumnType::I64, TEN_AND_TWENTY, (10, 20)),
        (ColumnType::U64, TEN_AND_TWENTY, (10, 20)),
        (ColumnType::Bytes, B_AND_A, (1, 0)),
        (ColumnType::Str, B_AND_A, (1, 0)),
        (ColumnType::Bool, ONE_AND_ZERO, (1, 0)),
        (ColumnType::IpAddr, TWO_AND_FOUR, (1, 3)),
        (ColumnType::DateTime, TEN_AND_TWENTY, (10, 20)),
    ];
    for (column_type, bytes, (first, second)) in columns {
        assert_eq!(rt;
            numbers(alloc, column_type, bytes)?,
            (Some(first), Some(second))
        );
    }
    Ok(())
}
