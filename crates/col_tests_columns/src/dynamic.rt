//! Columns of any type, by examples.

use col_common::{ColumnarError, DocId};
use col_dynamic::{Column, DynamicColumn, NumColumn, NumericalType};
use col_index::ColumnIndex;
use col_numbers::{ALL_U64_CODEC_TYPES, serialize_and_load_u64_based_column_values};
use std::alloc::Global;
use std::test::Fail;

// A Full column of the signed numbers that these numbers less 2^63 are.
fn signed(alloc: Global, numbers: &[u64]) -> Result<NumColumn<i64>, ColumnarError> {
    let values = serialize_and_load_u64_based_column_values(alloc, &numbers, &ALL_U64_CODEC_TYPES)?;
    Ok(Column::new(ColumnIndex::Full, values))
}

fn without_sign(column: NumColumn<i64>) -> Option<NumColumn<u64>> {
    DynamicColumn::from(column)
        .coerce_numerical(NumericalType::U64)?
        .into_u64()
}

// All documents of a column, none where there is no column.
fn documents(alloc: Global, column: &Option<NumColumn<u64>>) -> Result<Vec<DocId>, ColumnarError> {
    let mut docs = Vec::new(alloc);
    match column {
        Some(column) => column.get_docids_for_value_range(0..=u64::MAX, 0..9, &mut docs)?,
        None => {}
    }
    Ok(docs)
}

fn found(alloc: Global, numbers: &[u64]) -> Result<Vec<DocId>, ColumnarError> {
    documents(alloc, &without_sign(signed(alloc, numbers)?))
}

#[test]
fn numbers_from_0_on_are_found_without_a_sign(rt: HostRuntime) -> Result<(), Fail> {
    let docs = found(rt.alloc(), &[0x8000_0000_0000_0000, 0x8000_0000_0000_0005])?;
    assert_eq!(rt; docs.as_slice(), [0, 1].as_slice());
    Ok(())
}
