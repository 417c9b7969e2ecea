//! Merged files, by examples. Bytes were worked out by hand from the format's page.
use crate::file::{TEN_AND_TWENTY, opened};
use col_common::{Buffer, ColumnarError};
use col_merge::{StackFromReaders, merge_columnar};
use col_order::{MergeRowOrder, StackMergeOrder};
use std::alloc::Global;
use std::test::Fail;

// The same rows twice.
const TWICE: &[u8] = b"\0\0\x8a\x8a\x81\x84\x0a\x01\0\0\0\0\0\0\0\
\x81\x83a\0\x01\x8f\x06\0\0\0\0\0\0\0\x04\0\0\0\x03\0\0\0\x02qwB";

// The stack of two files of one column. Two reads open each, and one more reads its column: the
// fourth fails.
fn stacked(alloc: Global) -> Result<Buffer, ColumnarError> {
    let mut readers = [
        opened(alloc, TEN_AND_TWENTY, &[3])?,
        opened(alloc, TEN_AND_TWENTY, &[3])?,
    ];
    let order = MergeRowOrder::from(StackMergeOrder::stack(alloc, &readers)?);
    let mut output = Buffer::new(alloc);
    merge_columnar(alloc, &mut readers, &[], order, &mut output)?;
    Ok(output)
}

#[test]
fn a_column_of_a_merged_file_is_read_once(rt: HostRuntime) -> Result<(), Fail> {
    assert_eq!(rt; stacked(rt.alloc())?.as_slice(), TWICE);
    Ok(())
}
