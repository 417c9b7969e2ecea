//! Ends of files by examples.
use col_index::Version;
use col_keys::{footer, parse_footer};
use std::test::Fail;

#[test]
fn a_footer_tells_its_version(rt: HostRuntime) -> Result<(), Fail> {
    assert_eq!(rt; footer(), *b"\x03\x00\x00\x00\x02\x71\x77\x42");
    assert_eq!(rt; parse_footer(footer())?, Version::V3);
    assert_eq!(rt;
        parse_footer(*b"\x01\x00\x00\x00\x02\x71\x77\x42")?,
        Version::V1
    );
    assert_eq!(rt;
        parse_footer(*b"\x02\x00\x00\x00\x02\x71\x77\x42")?,
        Version::V2
    );
    assert!(rt; parse_footer(*b"\x04\x00\x00\x00\x02\x71\x77\x42").is_err());
    Ok(())
}
