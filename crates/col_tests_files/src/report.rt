//! Reports of files that fail to be read, by examples.
use crate::file::{TEN_AND_TWENTY, opened};
use col_common::ColumnarError;
use col_report::write_report;
use std::alloc::Global;
use std::test::Fail;

// The report of a file of one column, of which the read with this number fails.
fn report(alloc: Global, failing: u64) -> Result<Vec<u8>, ColumnarError> {
    let mut reader = opened(alloc, TEN_AND_TWENTY, &[failing])?;
    let mut out = Vec::new(alloc);
    write_report(alloc, &mut reader, &[], true, &mut out)?;
    Ok(out)
}

#[test]
fn a_column_that_is_reported_is_read_once(rt: HostRuntime) -> Result<(), Fail> {
    let text = "[\"rows\",2]\n[\"column\",\"a\",\"u64\",\"full\",2]\n";
    assert_eq!(rt; report(rt.alloc(), 3)?.as_slice(), text.as_bytes());
    assert_eq!(rt; report(rt.alloc(), 2), Err(ColumnarError::ReadFault));
    Ok(())
}
