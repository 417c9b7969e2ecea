//! Dictionaries by examples. The bytes of hello, happy and tax are those that the format's page
//! works out.

use bytes::Bytes;
use col_common::ColumnarError;
use col_terms::{Dictionary, Streamer};
use std::process::Abort;
use std::test::Fail;

// Three terms, which end at 5, 10 and 13: happy, hello, tax.
const THREE_TERMS: &[u8] = b"\x03\0\0\0\x05\0\0\0\x0a\0\0\0\x0d\0\0\0happyhellotax";

fn three_terms() -> Result<Dictionary, ColumnarError> {
    Dictionary::from_bytes(Bytes::from_static(THREE_TERMS))
}

fn assert_walk(rt: &impl Abort, mut walk: Streamer<'_>, expected: &[(u64, &[u8])]) {
    assert_eq!(rt; walk.key(), b"".as_slice());
    for pair in expected {
        assert!(rt; walk.advance());
        assert_eq!(rt; walk.key(), pair.1);
        assert_eq!(rt; walk.term_ord(), pair.0);
    }
    assert!(rt; !walk.advance());
    assert_eq!(rt; walk.key(), b"".as_slice());
}

#[test]
fn walks_go_over_all_terms_or_those_with_a_prefix(rt: HostRuntime) -> Result<(), Fail> {
    let dictionary = three_terms()?;
    assert_eq!(rt; dictionary.num_bytes(), 29);
    assert_eq!(rt; dictionary.term_ord(b"hello"), Some(1));
    assert_walk(
        &rt,
        dictionary.prefix_range(b"h"),
        &[(0, b"happy"), (1, b"hello")],
    );
    assert_walk(&rt, Dictionary::empty().stream(), &[]);
    assert_walk(&rt, Streamer::empty(), &[]);
    Ok(())
}
