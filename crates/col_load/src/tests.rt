//! Lines that are loaded, and lines that stop, by examples.

use crate::{LineCounts, LoadError, load};
use col_common::{Buffer, SourceInMemory};
use col_types::NumericalValue;
use col_writer::ColumnarWriter;
use std::alloc::Global;
use std::test::Fail;

// Loads a text whole.
fn load_text(
    alloc: Global,
    skips: bool,
    text: &[u8],
    output: &mut Buffer,
) -> Result<LineCounts, LoadError> {
    let mut bytes = Vec::new(alloc);
    bytes.extend_from_slice(text)?;
    let mut source = SourceInMemory::new(bytes);
    load(alloc, &[], skips, &mut source, output)
}

#[test]
fn documents_are_written_as_rows(rt: HostRuntime) -> Result<(), Fail> {
    let text = b"{\"a\":1}\n \r\n{\"a\":2,\"b\":\"x\"}\nno document\n";
    let mut output = Buffer::new(rt.alloc());
    let Ok(counts) = load_text(rt.alloc(), true, text, &mut output) else {
        return Err(Fail::new("lines that are skipped stop nothing"));
    };
    assert_eq!(rt; (counts.lines(), counts.skipped()), (5, 1));
    let bytes = output.into_bytes();
    let expected = recorded_by_hand(rt.alloc(), 2, "x")?;
    assert_eq!(rt; bytes.as_slice(), expected.as_slice());
    Ok(())
}

#[test]
fn a_line_may_span_blocks(rt: HostRuntime) -> Result<(), Fail> {
    let long = "0123456789abcdef".repeat(rt.alloc(), 12_500)?;
    let text = format!(in rt.alloc(); "{{\"a\":1}}\n{{\"a\":2,\"b\":\"{long}\"}}\n\n{{}}")?;
    let mut output = Buffer::new(rt.alloc());
    let Ok(counts) = load_text(rt.alloc(), false, text.as_bytes(), &mut output) else {
        return Err(Fail::new("each line is a document or blank"));
    };
    assert_eq!(rt; (counts.lines(), counts.skipped()), (4, 0));
    let bytes = output.into_bytes();
    let expected = recorded_by_hand(rt.alloc(), 3, &long)?;
    assert_eq!(rt; bytes.as_slice(), expected.as_slice());
    Ok(())
}

// The rows of the documents, recorded one by one.
fn recorded_by_hand(alloc: Global, num_docs: u32, text: &str) -> Result<Vec<u8>, Fail> {
    let mut columns = ColumnarWriter::new(alloc);
    columns.record_numerical(0, "a", NumericalValue::I64(1))?;
    columns.record_numerical(1, "a", NumericalValue::I64(2))?;
    columns.record_str(1, "b", text)?;
    let mut output = Buffer::new(alloc);
    columns.serialize(num_docs, None, &mut output)?;
    Ok(output.into_bytes())
}

#[test]
fn the_first_bad_line_is_told(rt: HostRuntime) -> Result<(), Fail> {
    for (text, expected) in [
        ("{}\n\n{\"size\":1.5}\n[]", "line 3, size"),
        ("{}\n[]", "line 2, "),
        ("{\"a\":-1}\n{\"a\":18446744073709551615}", "no table"),
    ] {
        let mut output = Buffer::new(rt.alloc());
        let told = match load_text(rt.alloc(), false, text.as_bytes(), &mut output) {
            Err(LoadError::BadLine { number, refusal }) => {
                format!(in rt.alloc(); "line {number}, {}", refusal.path.as_str())?
            }
            Err(LoadError::Columnar(_)) => String::from_str(rt.alloc(), "no table")?,
            _ => String::from_str(rt.alloc(), "other")?,
        };
        assert_eq!(rt; told.as_str(), expected);
    }
    Ok(())
}
