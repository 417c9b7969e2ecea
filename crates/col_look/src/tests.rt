//! Drawings of small columns, by examples.

use crate::{Bar, bar_len, bars, describe};
use col_common::ColumnarError;
use col_dynamic::{Column, DynamicColumn, NumColumn};
use col_facet::FacetCell;
use col_index::ColumnIndex;
use col_numbers::{ALL_U64_CODEC_TYPES, serialize_and_load_u64_based_column_values};
use std::alloc::Global;
use std::test::Fail;

// A Full column of these numbers.
fn column_of(alloc: Global, numbers: &[u64]) -> Result<DynamicColumn, ColumnarError> {
    let values = serialize_and_load_u64_based_column_values(alloc, &numbers, &ALL_U64_CODEC_TYPES)?;
    let column: NumColumn<u64> = Column::new(ColumnIndex::Full, values);
    Ok(DynamicColumn::from(column))
}

#[test]
fn bars_have_their_share_of_the_width(rt: HostRuntime) -> Result<(), Fail> {
    for (count, most, width, expected) in [
        (0, 0, 40, 0),
        (3, 7, 40, 17),
        (7, 7, 40, 40),
        (9, 7, 40, 40),
        (u64::MAX, u64::MAX, u32::MAX, u32::MAX),
        (u64::MAX / 2, u64::MAX, 10, 4),
    ] {
        assert_eq!(rt; bar_len(count, most, width), expected);
    }
    Ok(())
}

#[test]
fn bars_reach_from_the_least_to_the_greatest(rt: HostRuntime) -> Result<(), Fail> {
    let column = column_of(rt.alloc(), &[3, 9, 4, 12, 3])?;
    for (count, expected) in [
        (0, [].as_slice()),
        (1, [(3, 12, 5)].as_slice()),
        (3, [(3, 6, 3), (7, 10, 1), (11, 12, 1)].as_slice()),
        (
            4,
            [(3, 5, 3), (6, 8, 0), (9, 11, 1), (12, 12, 1)].as_slice(),
        ),
    ] {
        let drawn = bars(rt.alloc(), &column, count)?;
        assert_eq!(rt; drawn.len(), expected.len());
        for (bar, (first, last, count)) in drawn.iter().zip(expected.iter()) {
            let expected = Bar {
                first: *first,
                last: *last,
                count: *count,
            };
            assert_eq!(rt; *bar, expected);
        }
    }
    Ok(())
}

#[test]
fn a_description_has_the_ends_of_the_values(rt: HostRuntime) -> Result<(), Fail> {
    let column = column_of(rt.alloc(), &[3, 9, 4, 12, 3])?;
    let told = describe(rt.alloc(), &column)?;
    assert_eq!(rt; (told.num_values, told.num_rows_with_values), (5, 5));
    assert!(rt; told.distinct.is_none());
    assert!(rt; matches!(told.least, Some(FacetCell::Num(3))));
    assert!(rt; matches!(told.greatest, Some(FacetCell::Num(12))));
    Ok(())
}
