//! CSV that is loaded, and CSV that stops, by examples.

use crate::load_csv;
use col_common::{Buffer, DateTime};
use col_documents::Form;
use col_load::LoadError;
use col_types::NumericalValue;
use col_writer::ColumnarWriter;
use std::alloc::Global;
use std::test::Fail;

#[test]
fn records_are_written_as_rows(rt: HostRuntime) -> Result<(), Fail> {
    let text = b"a,b,a,when\r\n\
        7,02134,,1970-01-01\r\n\
        -8,\"say \"\"no\"\"\",9,\r\n\
        no,x\r\n\
        1,,,noon\r\n";
    let forms = [(String::from_str(rt.alloc(), "when")?, Form::Date)];
    let mut output = Buffer::new(rt.alloc());
    let Ok(counts) = load_csv(rt.alloc(), &forms, true, text, &mut output) else {
        return Err(Fail::new("records that are skipped stop nothing"));
    };
    assert_eq!(rt; (counts.lines(), counts.skipped()), (5, 2));
    let bytes = output.into_bytes();
    let expected = recorded_by_hand(rt.alloc())?;
    assert_eq!(rt; bytes.as_slice(), expected.as_slice());
    Ok(())
}

// The same rows, recorded one by one.
fn recorded_by_hand(alloc: Global) -> Result<Vec<u8>, Fail> {
    let mut columns = ColumnarWriter::new(alloc);
    columns.record_numerical(0, "a", NumericalValue::I64(7))?;
    columns.record_str(0, "b", "02134")?;
    columns.record_datetime(0, "when", DateTime::from_timestamp_nanos(0))?;
    columns.record_numerical(1, "a", NumericalValue::I64(-8))?;
    columns.record_str(1, "b", "say \"no\"")?;
    columns.record_numerical(1, "a", NumericalValue::I64(9))?;
    let mut output = Buffer::new(alloc);
    columns.serialize(2, None, &mut output)?;
    Ok(output.into_bytes())
}

#[test]
fn the_first_bad_record_is_told(rt: HostRuntime) -> Result<(), Fail> {
    let forms = [
        (String::from_str(rt.alloc(), "when")?, Form::Date),
        (String::from_str(rt.alloc(), "price")?, Form::Decimal(2)),
    ];
    for (text, expected) in [
        ("".as_bytes(), "loaded"),
        (b"a,b\n", "loaded"),
        (b"a,b\n1,2\n3\n", "record 3, , Width"),
        (b"a,b\n1,2,3\n", "record 2, , Width"),
        (b"a,when\n\n1,noon\n", "record 2, when, Form"),
        (b"a,price\n,1.5\n,1.234\n", "record 3, price, Fraction"),
        (b"a\n1\n1.5\n", "record 3, a, Fraction"),
        (b"a,b\n1e3,\n-2,\n", "record 2, a, Fraction"),
        (b"a,a\n1,2.50\n", "record 2, a, Fraction"),
        (b"a\n1.5\n1.5.0\n", "loaded"),
        (b"a\n02134\n0.5\n", "loaded"),
        (b"a\n99999999999999999999\n", "loaded"),
        (b"a,b\n1,\xFF\n", "record 2, b, Text"),
        (b"a,\x00\n", "record 1, , Name"),
        (b"a,\xFF\n", "record 1, , Name"),
    ] {
        let mut output = Buffer::new(rt.alloc());
        let told = match load_csv(rt.alloc(), &forms, false, text, &mut output) {
            Ok(_) => String::from_str(rt.alloc(), "loaded")?,
            Err(LoadError::BadLine { number, refusal }) => format!(in rt.alloc();
                "record {number}, {}, {:?}",
                refusal.path.as_str(),
                refusal.reason
            )?,
            Err(_) => String::from_str(rt.alloc(), "other")?,
        };
        assert_eq!(rt; told.as_str(), expected);
    }
    Ok(())
}
