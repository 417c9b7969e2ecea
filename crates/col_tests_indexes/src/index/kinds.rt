//! Cardinalities and versions.

use col_common::Buffer;
use col_index::{
    CURRENT_VERSION, Cardinality, Version, cardinalities_compare_as_their_codes,
    versions_are_equal_as_their_numbers,
};
use std::test::Fail;

#[test]
fn cardinalities_and_versions_have_texts(rt: HostRuntime) -> Result<(), Fail> {
    cardinalities_compare_as_their_codes();
    versions_are_equal_as_their_numbers();
    for (cardinality, code, name) in [
        (Cardinality::Full, 0, "full"),
        (Cardinality::Optional, 1, "opt"),
        (Cardinality::Multivalued, 2, "mult"),
    ] {
        assert_eq!(rt; cardinality.is_optional(), code == 1, "{name}");
        assert_eq!(rt; cardinality.is_multivalue(), code == 2, "{name}");
        let mut buffer = Buffer::new(rt.alloc());
        cardinality.serialize(&mut buffer)?;
        assert_eq!(rt; buffer.as_slice(), [code].as_slice(), "{name}");
        let text = format!(in rt.alloc(); "{cardinality}")?;
        assert_eq!(rt; text.as_str(), name);
    }
    let text = format!(in rt.alloc(); "{CURRENT_VERSION} {}", Version::V1)?;
    assert_eq!(rt; text.as_str(), "v3 v1");
    Ok(())
}
