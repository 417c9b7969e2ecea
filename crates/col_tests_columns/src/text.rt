//! Terms that are no texts.

use bytes::Bytes;
use col_common::ColumnarError;
use col_index::CURRENT_VERSION;
use col_text::{StrColumn, open_column_str};
use std::alloc::Global;
use std::process::Abort;
use std::test::Fail;

// Two rows with the terms a and ff: two terms, a Full index, the ordinals 0 and 1, how long the
// index and the dictionary are.
const A_AND_NO_TEXT: &[u8] = b"\x02\0\0\0\x01\0\0\0\x02\0\0\0a\xff\
    \0\0\x80\x81\x81\x82\x02\x01\0\0\0\0\0\0\0\x0e\0\0\0";

fn assert_texts(rt: &impl Abort, alloc: Global, column: &StrColumn) -> Result<(), Fail> {
    let mut text = String::from_str(alloc, "old")?;
    assert!(rt; matches!(column.ord_to_str(1, &mut text), Err(ColumnarError::NotUtf8)));
    assert_eq!(rt; text.as_str(), "");
    assert!(rt; column.ord_to_str(0, &mut text)?);
    assert_eq!(rt; text.as_str(), "a");
    assert!(rt; !column.ord_to_str(2, &mut text)?);
    assert_eq!(rt; text.as_str(), "");
    let mut bytes = Vec::new(alloc);
    assert!(rt; column.bytes_column().ord_to_bytes(1, &mut bytes)?);
    assert_eq!(rt; bytes.as_slice(), b"\xff".as_slice());
    Ok(())
}

#[test]
fn a_term_that_is_no_text_is_told(rt: HostRuntime) -> Result<(), Fail> {
    let bytes = Bytes::from_static(A_AND_NO_TEXT);
    let column = open_column_str(rt.alloc(), bytes, CURRENT_VERSION, 2)?;
    assert_texts(&rt, rt.alloc(), &column)
}
