//! Types and single values by examples.

use col_common::{ByteCount, DateTime, Ipv6Addr};
use col_types::{
    Coerce, ColumnSpaceUsage, ColumnType, HasAssociatedColumnType, NumericalType, NumericalValue,
};
use std::test::Fail;

#[test]
fn types_have_names_and_forms(rt: HostRuntime) -> Result<(), Fail> {
    let alloc = rt.alloc();
    for (column_type, name, form) in [
        (ColumnType::I64, "i64", "\"I64\""),
        (ColumnType::U64, "u64", "\"U64\""),
        (ColumnType::Bytes, "bytes", "\"Bytes\""),
        (ColumnType::Str, "str", "\"Str\""),
        (ColumnType::Bool, "bool", "\"Bool\""),
        (ColumnType::IpAddr, "ip", "\"IpAddr\""),
        (ColumnType::DateTime, "datetime", "\"DateTime\""),
    ] {
        assert_eq!(rt; column_type.to_string(alloc)?.as_str(), name);
        assert_eq!(rt; serde_json::to_string(alloc, &column_type)?.as_str(), form);
        assert_eq!(rt;
            serde_json::from_str::<ColumnType>(alloc, form)?,
            column_type
        );
    }
    for (numerical_type, code, name, form) in [
        (NumericalType::default(), 0, "i64", "\"I64\""),
        (NumericalType::U64, 1, "u64", "\"U64\""),
    ] {
        assert_eq!(rt; numerical_type.to_code(), code);
        assert_eq!(rt; NumericalType::try_from_code(code)?, numerical_type);
        assert!(rt; !ColumnType::from(numerical_type).is_date_time());
        assert_eq!(rt; numerical_type.to_string(alloc)?.as_str(), name);
        assert_eq!(rt;
            serde_json::to_string(alloc, &numerical_type)?.as_str(),
            form
        );
        assert_eq!(rt;
            serde_json::from_str::<NumericalType>(alloc, form)?,
            numerical_type
        );
    }
    Ok(())
}

#[test]
fn numbers_are_read_from_texts_and_normalized(rt: HostRuntime) {
    let above = NumericalValue::U64(9223372036854775808);
    for (text, number, normal) in [
        ("123", NumericalValue::I64(123), NumericalValue::I64(123)),
        (
            "-9223372036854775808",
            NumericalValue::I64(i64::MIN),
            NumericalValue::I64(i64::MIN),
        ),
        ("9223372036854775808", above, above),
        (
            "18446744073709551615",
            NumericalValue::U64(u64::MAX),
            NumericalValue::U64(u64::MAX),
        ),
    ] {
        assert_eq!(rt; text.parse::<NumericalValue>(), Ok(number), "{text}");
        assert_eq!(rt; number.normalize(), normal, "{text}");
    }
    assert_eq!(rt; "1.0".parse::<NumericalValue>(), Err(()));
    assert_eq!(rt;
        NumericalValue::from(9223372036854775807u64).normalize(),
        NumericalValue::I64(i64::MAX)
    );
    assert_eq!(rt; i64::coerce(NumericalValue::U64(7)), 7);
    assert_eq!(rt; u64::coerce(NumericalValue::I64(7)), 7);
    let time = DateTime::coerce(NumericalValue::I64(-1));
    assert_eq!(rt; time, DateTime::from_timestamp_nanos(-1));
    assert!(rt; u64::default_value() == 0);
    assert!(rt; Ipv6Addr::default_value() == Ipv6Addr::default());
}

#[test]
fn usages_are_summed_part_by_part(rt: HostRuntime) -> Result<(), Fail> {
    let alloc = rt.alloc();
    let numbers = ColumnSpaceUsage::new(ByteCount::from(3), None);
    let terms = ColumnSpaceUsage::new(ByteCount::from(4), Some(ByteCount::from(5)));
    for (usage, form) in [
        (
            &numbers,
            "{\"column_num_bytes\":3,\"dictionary_num_bytes\":null}",
        ),
        (
            &terms,
            "{\"column_num_bytes\":4,\"dictionary_num_bytes\":5}",
        ),
        (
            &numbers.merge(&terms),
            "{\"column_num_bytes\":7,\"dictionary_num_bytes\":5}",
        ),
        (
            &terms.merge(&terms),
            "{\"column_num_bytes\":8,\"dictionary_num_bytes\":10}",
        ),
    ] {
        assert_eq!(rt; serde_json::to_string(alloc, usage)?.as_str(), form);
        let read = serde_json::from_str::<ColumnSpaceUsage>(alloc, form)?;
        assert_eq!(rt; read.total_num_bytes(), usage.total_num_bytes(), "{form}");
    }
    assert_eq!(rt; terms.column_num_bytes().get_bytes(), 4);
    assert_eq!(rt; terms.dictionary_num_bytes(), Some(ByteCount::from(5)));
    assert_eq!(rt; terms.total_num_bytes().get_bytes(), 9);
    assert_eq!(rt; terms.clone()?.total_num_bytes().get_bytes(), 9);
    Ok(())
}
