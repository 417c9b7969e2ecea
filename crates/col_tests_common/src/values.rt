//! Refusals, points in time, addresses and bits.

use col_common::{
    ColumnarError, DateTime, Ipv6Addr, JSON_END_OF_PATH, JSON_PATH_SEGMENT_SEP, place_bits,
    pop_first_byte, select_bits,
};
use std::test::Fail;

#[test]
fn each_refusal_has_its_number_and_its_text(rt: HostRuntime) -> Result<(), Fail> {
    for (error, code, text) in [
        (ColumnarError::OutOfMemory, 3, "out of memory"),
        (ColumnarError::ReadFault, 4, "read failed"),
        (ColumnarError::WriteFault, 5, "write failed"),
        (ColumnarError::InvalidData, 6, "invalid data"),
        (ColumnarError::BadOrder, 7, "bad row order"),
        (ColumnarError::BadName, 8, "bad column name"),
        (
            ColumnarError::RequiredConflict,
            9,
            "required columns conflict",
        ),
        (ColumnarError::CannotCoerce, 10, "cannot coerce column"),
        (
            ColumnarError::NumericalConflict,
            11,
            "no numerical type fits",
        ),
        (ColumnarError::TooLarge, 12, "too large"),
        (ColumnarError::NoCodec, 13, "no codec applies"),
        (ColumnarError::ForcedType, 14, "type is forced"),
        (ColumnarError::DocOrder, 15, "document out of order"),
        (ColumnarError::DocOutOfRange, 16, "document out of range"),
        (
            ColumnarError::TieBreakerStart,
            17,
            "tie-breaker start out of range",
        ),
        (ColumnarError::NotUtf8, 18, "not valid utf-8"),
    ] {
        assert_eq!(rt; error.code(), code, "{text}");
        assert_eq!(rt; error.to_string(rt.alloc())?.as_str(), text);
    }
    Ok(())
}

#[test]
fn times_addresses_and_bits_are_taken_apart(rt: HostRuntime) {
    let before = DateTime::from_timestamp_nanos(-1);
    assert_eq!(rt; before.into_timestamp_nanos(), -1);
    let octets = [0, 1, 2, 3, 4, 5, 6, 7, 8, 9, 10, 11, 12, 13, 14, 255];
    assert_eq!(rt; Ipv6Addr::from(octets).octets(), octets);
    assert_eq!(rt; select_bits::<1, 4>(0b1011_0110), 0b011);
    assert_eq!(rt; place_bits::<5, 8>(0b101), 0b1010_0000);
    let mut bytes = b"ab".as_slice();
    assert_eq!(rt; pop_first_byte(&mut bytes), Some(b'a'));
    assert_eq!(rt; bytes, b"b".as_slice());
    assert_eq!(rt; (JSON_PATH_SEGMENT_SEP, JSON_END_OF_PATH), (1, 0));
}
