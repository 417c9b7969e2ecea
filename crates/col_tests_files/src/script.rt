//! What is printed of lines.
use col_lines::parse_line;
use std::alloc::{AllocError, Global};
use std::test::Fail;

// Lines, and what is printed of them.
const LINES: [(&str, &str); 10] = [
    ("[\"segment\",4294967295]", "Segment(4294967295)"),
    (
        "[\"type\",\"a\",\"datetime\"]",
        "Record(Type { name: \"a\", column_type: DateTime })",
    ),
    (
        "[\"sorted\",\"a\",\"str\"]",
        "Record(Sorted { name: \"a\", term_type: Str })",
    ),
    (
        "[\"tie\",\"t\",-9223372036854775808]",
        "Record(Tie { name: \"t\", start: -9223372036854775808 })",
    ),
    (
        "[\"ip\",0,\"a\",\"000000000000000000000000000001fF\"]",
        "Record(Value { doc: 0, name: \"a\", value: IpAddr(Ipv6Addr { bits: 511 }) })",
    ),
    (
        "[\"str\",0,\"\\u0041\",\"b\\\"c\"]",
        "Record(Value { doc: 0, name: \"A\", value: Str(\"b\\\"c\") })",
    ),
    (
        "[\"require\",\"a\",\"ip\"]",
        "Require { name: \"a\", column_type: IpAddr }",
    ),
    (
        "[\"order\",[[1,0],[0,4294967295]]]",
        "Order(Named([RowAddr { segment_ord: 1, row_id: 0 }, \
            RowAddr { segment_ord: 0, row_id: 4294967295 }]))",
    ),
    (
        "[\"sort\",\"w\",\"str\",false]",
        "Order(Sorted(SortKey { name: \"w\", column_type: Str, reversed: false }))",
    ),
    (
        "[\"find\",\"a\",\"i64\",1,-1,4,3]",
        "Ask(Find(Find { name: \"a\", ends: I64 { lo: 1, hi: -1 }, from: 4, to: 3 }))",
    ),
];

// Lines that say nothing.
const BAD_LINES: [&str; 3] = [
    "[\"sort\",\"w\",\"str\",0]",
    "[\"sort\",\"w\",\"str\"]",
    "[\"sort\",\"w\",\"text\",true]",
];

// What is printed of the line of a piece.
fn printed(alloc: Global, piece: &str) -> Result<Option<String>, AllocError> {
    match parse_line(alloc, piece.as_bytes())? {
        Some(line) => Ok(Some(format!(in alloc; "{line:?}")?)),
        None => Ok(None),
    }
}

#[test]
fn lines_are_calls_columns_orders_and_lookups(rt: HostRuntime) -> Result<(), Fail> {
    for (piece, text) in LINES {
        let printed = printed(rt.alloc(), piece)?;
        assert_eq!(rt; printed.as_deref(), Some(text));
    }
    Ok(())
}

#[test]
fn a_sort_has_a_known_type_and_a_truth_value(rt: HostRuntime) -> Result<(), Fail> {
    for piece in BAD_LINES {
        let line = parse_line(rt.alloc(), piece.as_bytes())?;
        assert!(rt; line.is_none());
    }
    Ok(())
}
