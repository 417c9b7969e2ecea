//! Columns that record, by examples.

use col_common::ColumnarError;
use col_index::Cardinality;
use col_types::NumericalValue;
use col_writer_columns::{ColumnOperation, ColumnWriter, NumericalColumnWriter, count_operations};
use std::process::Abort;
use std::test::Fail;

fn assert_told(rt: &impl Abort, column: &ColumnWriter<bool>) {
    let mut operations = column.operations();
    assert_eq!(rt; operations.next(), Some(ColumnOperation::NewDoc(1)));
    assert_eq!(rt; operations.next(), Some(ColumnOperation::from(true)));
    assert_eq!(rt; operations.next(), Some(ColumnOperation::Value(false)));
    assert_eq!(rt; operations.next(), None);
    assert_eq!(rt; count_operations(column), 3);
}

#[test]
fn a_late_value_is_refused_and_the_next_one_taken(rt: HostRuntime) -> Result<(), Fail> {
    let mut column = ColumnWriter::new(rt.alloc());
    column.record(1, true)?;
    assert_eq!(&rt; column.record(0, true), Err(ColumnarError::DocOrder));
    column.record(1, false)?;
    assert_told(&rt, &column);
    Ok(())
}

#[test]
fn a_column_of_numbers_has_the_cardinality_of_its_documents(rt: HostRuntime) -> Result<(), Fail> {
    let mut column = NumericalColumnWriter::new(rt.alloc());
    column.record_numerical_value(0, NumericalValue::U64(1))?;
    assert_eq!(rt; column.cardinality(1), Cardinality::Full);
    assert_eq!(rt; column.cardinality(2), Cardinality::Optional);
    Ok(())
}
