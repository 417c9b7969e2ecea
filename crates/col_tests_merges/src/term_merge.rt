//! Merged terms by examples. The bytes of dictionaries are spelled by the format's page.
ghost use Rattle.std.specs.Prelude.{◌<◌, ◌^◌, length, IfOk};

use bytes::Bytes;
use col_common::ColumnarError;
use col_index::CURRENT_VERSION;
use col_merge_column::{merged_content_is_joined, picked_content_is_joined};
use col_merge_terms::{TermMerger, TermsWithSegmentOrd, compute_merged_term_ord_mapping};
use col_terms::Dictionary;
use col_text::{BytesColumn, open_column_bytes};
use std::alloc::Global;
use std::process::Abort;
use std::test::Fail;

// Three terms, which end at 5, 10 and 13: happy, hello, tax.
const THREE_TERMS: &[u8] = b"\x03\0\0\0\x05\0\0\0\x0a\0\0\0\x0d\0\0\0happyhellotax";

// Two terms, which end at 5 and 8: hello, joy.
const TWO_TERMS: &[u8] = b"\x02\0\0\0\x05\0\0\0\x08\0\0\0hellojoy";

// Rows with hello, happy and tax: three terms, a Full index, the ordinals 1, 0, 2, how long the
// index and the dictionary are.
const THREE_ROWS: &[u8] = b"\x03\0\0\0\x05\0\0\0\x0a\0\0\0\x0d\0\0\0happyhellotax\
    \0\0\x80\x81\x82\x83\x21\x01\0\0\0\0\0\0\0\x1d\0\0\0";

// A row with joy.
const ONE_ROW: &[u8] = b"\x01\0\0\0\x03\0\0\0joy\0\0\x80\x81\x80\x81\x01\0\0\0\0\0\0\0\
    \x0b\0\0\0";

// The rows of two columns.
fn two_columns(alloc: Global) -> Result<Vec<BytesColumn>, ColumnarError>
    ensures { IfOk result (λ columns. length columns.items < 2 ^ 32) }
{
    let mut columns = Vec::with_capacity(alloc, 2)?;
    columns.push(open_column_bytes(alloc, Bytes::from_static(THREE_ROWS), CURRENT_VERSION, 3)?)?;
    columns.push(open_column_bytes(alloc, Bytes::from_static(ONE_ROW), CURRENT_VERSION, 1)?)?;
    Ok(columns)
}

fn assert_places(rt: &impl Abort, alloc: Global, columns: &[BytesColumn]) -> Result<(), Fail>
    requires { length columns.now < 2 ^ 32 }
{
    let mapping = compute_merged_term_ord_mapping(alloc, columns)?;
    assert_eq!(rt; mapping.len(), 2);
    assert_eq!(rt; mapping[0].as_slice(), [0, 1, 3].as_slice());
    assert_eq!(rt; mapping[1].as_slice(), [2].as_slice());
    Ok(())
}

#[test]
fn terms_have_the_places_that_they_have_among_all(rt: HostRuntime) -> Result<(), Fail> {
    merged_content_is_joined();
    picked_content_is_joined::<i64>();
    let columns = two_columns(rt.alloc())?;
    assert_places(&rt, rt.alloc(), &columns)
}

// The next term, with the segments that have it and its ordinals there.
fn assert_term(
    rt: &impl Abort,
    merger: &mut TermMerger<'_>,
    key: &[u8],
    segments: &[(usize, u64)],
) {
    assert!(rt; merger.advance());
    assert_eq!(rt; merger.key(), key);
    let mut matching = merger.matching_segments();
    for segment in segments {
        assert_eq!(rt; matching.next(), Some(*segment));
    }
    assert_eq!(rt; matching.next(), None);
}

// The terms of two dictionaries, of which the first is that of the second segment.
fn assert_merged(
    rt: &impl Abort,
    alloc: Global,
    three: &Dictionary,
    two: &Dictionary,
) -> Result<(), Fail> {
    let mut streams = Vec::with_capacity(alloc, 2)?;
    streams.push(TermsWithSegmentOrd {
        terms: three.stream(),
        segment_ord: 1,
    })?;
    streams.push(TermsWithSegmentOrd {
        terms: two.stream(),
        segment_ord: 0,
    })?;
    let mut merger = TermMerger::new(alloc, streams)?;
    assert_term(rt, &mut merger, b"happy", &[(1, 0)]);
    assert_term(rt, &mut merger, b"hello", &[(0, 0), (1, 1)]);
    assert_term(rt, &mut merger, b"joy", &[(0, 1)]);
    assert_term(rt, &mut merger, b"tax", &[(1, 2)]);
    assert!(rt; !merger.advance());
    Ok(())
}

// Opens the bytes of a dictionary.
fn open_terms(bytes: &'static [u8]) -> Result<Dictionary, ColumnarError> {
    Dictionary::from_bytes(Bytes::from_static(bytes))
}

#[test]
fn each_term_comes_once_with_all_its_segments(rt: HostRuntime) -> Result<(), Fail> {
    let (three, two) = (open_terms(THREE_TERMS)?, open_terms(TWO_TERMS)?);
    assert_merged(&rt, rt.alloc(), &three, &two)
}
