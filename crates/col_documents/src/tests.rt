//! Documents by examples.

use crate::{DocumentError, Field, Form, read_document};
use json::Scratch;
use std::alloc::Global;
use std::test::Fail;

#[test]
fn documents_are_read(rt: HostRuntime) -> Result<(), Fail> {
    let forms = [
        (String::from_str(rt.alloc(), "price")?, Form::Decimal(2)),
        (String::from_str(rt.alloc(), "at")?, Form::Millis),
        (String::from_str(rt.alloc(), "raw")?, Form::Digits),
        (String::from_str(rt.alloc(), "when")?, Form::Date),
        (String::from_str(rt.alloc(), "from")?, Form::Address),
    ];
    for (line, expected) in [
        (r#"{}"#, ""),
        (
            r#"{"a":1,"b":[true,null,"x"],"c":{"d":-7,"e":{"f":18446744073709551615}}}"#,
            "a=I64(1) b=Bool(true) b=Str(\"x\") c\u{1}d=I64(-7) \
             c\u{1}e\u{1}f=U64(18446744073709551615) ",
        ),
        (
            r#"{"price":1.5,"at":1700000000123,"raw":"00fF"}"#,
            "price=I64(150) at=DateTime(DateTime { timestamp_nanos: 1700000000123000000 }) \
             raw=Bytes([0, 255]) ",
        ),
        (
            r#"{"when":["1970-01-02","1970-01-01T01:00:00.000000001+01:00","1970-01-01 00:00:02"]}"#,
            "when=DateTime(DateTime { timestamp_nanos: 86400000000000 }) \
             when=DateTime(DateTime { timestamp_nanos: 1 }) \
             when=DateTime(DateTime { timestamp_nanos: 2000000000 }) ",
        ),
        (
            r#"{"from":["10.0.0.1","::1"]}"#,
            "from=IpAddr(Ipv6Addr { bits: 281470849515521 }) from=IpAddr(Ipv6Addr { bits: 1 }) ",
        ),
        (
            r#"{"when":"1970-01-01T00:00:00[Europe/Paris]"}"#,
            "when: Form",
        ),
        (r#"{"when":"2300-01-01"}"#, "when: TooLarge"),
        (r#"{"from":"10.0.0.256"}"#, "from: Form"),
        (r#"{"size":1.5}"#, "size: Fraction"),
        (r#"{"size":1e3}"#, "size: Fraction"),
        (r#"{"size":18446744073709551616}"#, "size: TooLarge"),
        (r#"{"price":92233720368547758079.99}"#, "price: TooLarge"),
        (r#"{"at":9223372036855}"#, "at: TooLarge"),
        (r#"{"raw":"0"}"#, "raw: Form"),
        (r#"{"a":[[1]]}"#, "a: Nested"),
        ("{\"a\\u0000\":1}", "a\u{0}: Name"),
        ("[1]", ": Object"),
        ("{\"a\":1", ": Json"),
        ("", ": Json"),
    ] {
        let mut scratch = Scratch::new(rt.alloc());
        let told = match read_document(rt.alloc(), &forms, &mut scratch, line.as_bytes()) {
            Ok(fields) => said(rt.alloc(), &fields)?,
            Err(DocumentError::Refused(refusal)) => format!(in rt.alloc();
                "{}: {:?}",
                refusal.path.as_str(),
                refusal.reason
            )?,
            Err(DocumentError::OutOfMemory) => String::from_str(rt.alloc(), "memory")?,
        };
        assert_eq!(rt; told.as_str(), expected, "{line}");
    }
    Ok(())
}

fn said(alloc: Global, fields: &[Field]) -> Result<String, Fail> {
    let mut text = String::new(alloc);
    for field in fields {
        let one = format!(in alloc; "{}={:?} ", field.path.as_str(), field.value)?;
        text.push_str(one.as_str())?;
    }
    Ok(text)
}
