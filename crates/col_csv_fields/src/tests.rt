//! Fields that are read, and fields that aren't, by examples.

use crate::{
    address_spelled, bytes_spelled, flag_spelled, is_row_number, key_spelled, signed_spelled,
    unsigned_spelled,
};
use col_common::Ipv6Addr;
use col_types::ColumnType;
use std::test::Fail;

#[test]
fn numbers_are_read_in_one_form(rt: HostRuntime) -> Result<(), Fail> {
    for (text, unsigned, signed) in [
        ("0", Some(0), Some(0)),
        ("120", Some(120), Some(120)),
        ("-1", None, Some(-1)),
        ("9223372036854775808", Some(1 << 63), None),
        ("-9223372036854775808", None, Some(i64::MIN)),
        ("-9223372036854775809", None, None),
        ("18446744073709551615", Some(u64::MAX), None),
        ("18446744073709551616", None, None),
        ("", None, None),
        ("-", None, None),
        ("-0", None, None),
        ("+1", None, None),
        ("01", None, None),
        ("1 ", None, None),
    ] {
        assert_eq!(rt; unsigned_spelled(text.as_bytes()), unsigned, "{text}");
        assert_eq!(rt; signed_spelled(text.as_bytes()), signed, "{text}");
    }
    Ok(())
}

#[test]
fn other_fields_are_read_in_one_form(rt: HostRuntime) -> Result<(), Fail> {
    assert!(rt; is_row_number(b"4294967295", u32::MAX));
    assert!(rt; !is_row_number(b"07", 7));
    assert_eq!(rt; flag_spelled(b"true"), Some(true));
    assert_eq!(rt; flag_spelled(b"True"), None);
    assert_eq!(rt; key_spelled(b"ip:a:b"), Some((ColumnType::IpAddr, "a:b")));
    assert_eq!(rt; key_spelled(b"text:a"), None);
    let address = address_spelled(b"00000000000000000000ffff7f00000a");
    assert_eq!(rt; address, Some(Ipv6Addr::from_bits(0xffff_7f00_000a)));
    assert_eq!(rt; address_spelled(b"00000000000000000000ffff7f00000A"), None);
    Ok(())
}

#[test]
fn bytes_are_read_in_one_form(rt: HostRuntime) -> Result<(), Fail> {
    let mut bytes = Vec::from_slice(rt.alloc(), b"what was there")?;
    assert!(rt; bytes_spelled(b"00ff7a", &mut bytes)?);
    assert_eq!(rt; bytes.as_slice(), b"\x00\xffz".as_slice());
    for text in ["0", "0g", "FF"] {
        assert!(rt; !bytes_spelled(text.as_bytes(), &mut bytes)?, "{text}");
    }
    Ok(())
}
