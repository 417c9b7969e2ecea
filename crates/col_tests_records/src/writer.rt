//! What a writer records, by examples.

use col_common::{ColumnarError, DateTime, DocId, Ipv6Addr, RowId, VecSink};
use col_types::{ColumnType, NumericalValue};
use col_writer::ColumnarWriter;
use std::alloc::Global;
use std::process::Abort;
use std::test::Fail;

// The columns of two rows, one a line or two, and their keys: 5 and 3 of i64; nothing and tax of
// bytes; hello, happy in the first row of str; false and true; 5 and 6 of ip; -1 and nothing of
// datetime.
const SIX: &[u8] = b"\
    \0\0\x03\0\0\0\0\0\0\0\0\x81\x82\x81\x82\x01\x01\0\0\0\0\0\0\0\
    \x01\0\0\0\x03\0\0\0tax\
    \x01\0\x82\0\x81\x81\x80\x81\0\x80\x81\x80\x81\x08\0\0\0\0\0\0\0\x0b\0\0\0\
    \x02\0\0\0\x05\0\0\0\x0a\0\0\0happyhello\
    \x02\0\x82\0\x80\x81\x80\x81\0\x80\x82\x81\x82\x02\x07\0\0\0\0\0\0\0\
    \0\x80\x81\x81\x82\x01\x16\0\0\0\0\0\0\0\x16\0\0\0\
    \0\0\x80\x81\x81\x82\x02\x01\0\0\0\0\0\0\0\
    \0\x82\x01\x09\0\0\0\0\0\0\0\0\x85\x86\x82\x02\x81\x85\x81\x0f\0\0\0\0\0\0\0\
    \x01\0\0\0\0\0\0\0\
    \x01\0\x82\0\x80\x81\x80\x81\0\x7f\x7f\x7f\x7f\x7f\x7f\x7f\x7f\xff\x81\x80\x81\
    \x08\0\0\0\0\0\0\0\
    \x86\x83a\0\0\x98\x83a\0\x03\xa4\x83b\0\x04\xbe\x83c\0\x05\x8f\x83c\0\x06\xa3\x83d\0\x07\x9d\
    \x1f\0\0\0\0\0\0\0\x02\0\0\0\x03\0\0\0\x02\x71\x77\x42";

// The u64 numbers 2, 3 and 1 under "a", of three rows.
const TWO_THREE_ONE: &[u8] = b"\0\0\x81\x81\x82\x83\x09\x01\0\0\0\0\0\0\0\
    \x81\x83\x61\0\x01\x8f\x06\0\0\0\0\0\0\0\x03\0\0\0\x03\0\0\0\x02\x71\x77\x42";

// The documents 0 to 3 by a column, or by falling values.
fn assert_order(rt: &impl Abort, order: &Result<Vec<DocId>, ColumnarError>, docs: &[DocId]) {
    match order {
        Ok(order) => assert_eq!(rt; order.as_slice(), docs),
        Err(_) => assert!(rt; false),
    }
}

// 5 at document 0, 3 at document 2 and 5 at document 3.
fn fives(alloc: Global) -> Result<ColumnarWriter, ColumnarError> {
    let mut writer = ColumnarWriter::new(alloc);
    writer.record_numerical(0, "size", NumericalValue::I64(5))?;
    writer.record_numerical(2, "size", NumericalValue::I64(3))?;
    writer.record_numerical(3, "size", NumericalValue::I64(5))?;
    Ok(writer)
}

#[test]
fn documents_are_ordered_by_the_numbers_of_a_name(rt: HostRuntime) -> Result<(), Fail> {
    let writer = fives(rt.alloc())?;
    assert_order(&rt, &writer.sort_order("size", 4, false), &[1, 2, 0, 3]);
    assert_order(&rt, &writer.sort_order("size", 4, true), &[0, 3, 2, 1]);
    assert_order(&rt, &writer.sort_order("other", 4, false), &[]);
    Ok(())
}

// hello at document 1 and happy at document 2, as texts, and tax at document 0, as bytes.
fn words(alloc: Global) -> Result<ColumnarWriter, ColumnarError> {
    let mut writer = ColumnarWriter::new(alloc);
    writer.record_bytes(0, "word", b"tax")?;
    writer.record_str(1, "word", "hello")?;
    writer.record_str(2, "word", "happy")?;
    writer.record_bytes(2, "other", b"tax")?;
    Ok(writer)
}

// Besides those words: hello once more, two numbers, a bool, an address and a point in time.
fn of_all_kinds(alloc: Global) -> Result<ColumnarWriter, ColumnarError> {
    let mut writer = words(alloc)?;
    writer.record_str(2, "word", "hello")?;
    writer.record_numerical(0, "size", NumericalValue::I64(5))?;
    writer.record_numerical(1, "size", NumericalValue::U64(6))?;
    writer.record_bool(0, "flag", true)?;
    writer.record_ip_addr(0, "ip", Ipv6Addr::from_bits(1))?;
    writer.record_datetime(0, "time", DateTime::from_timestamp_nanos(-5))?;
    Ok(writer)
}

#[test]
fn texts_come_before_bytes_of_their_name(rt: HostRuntime) -> Result<(), Fail> {
    let writer = of_all_kinds(rt.alloc())?;
    assert_order(&rt, &writer.sort_order("word", 3, false), &[0, 2, 1]);
    assert_order(&rt, &writer.sort_order("other", 3, true), &[2, 0, 1]);
    assert_order(&rt, &writer.sort_order("time", 3, false), &[1, 2, 0]);
    Ok(())
}

#[test]
fn names_records_and_distinct_texts_take_memory(rt: HostRuntime) -> Result<(), Fail> {
    let writer = of_all_kinds(rt.alloc())?;
    // word of bytes 4 + 8 + 3, word of str 4 + 3 * 8 + 10, other 5 + 8 + 3, size 4 + 2 * 12,
    // flag 4 + 5, ip 2 + 20, time 4 + 12.
    assert_eq!(rt; writer.mem_usage(), 144);
    writer.content_is_sound();
    Ok(())
}

// Two documents of columns of the six kinds.
fn six(alloc: Global) -> Result<ColumnarWriter, ColumnarError> {
    let mut writer = ColumnarWriter::new(alloc);
    writer.record_numerical(0, "a", NumericalValue::I64(3))?;
    writer.record_numerical(1, "a", NumericalValue::I64(5))?;
    writer.record_bytes(0, "a", b"tax")?;
    writer.record_str(1, "b", "hello")?;
    writer.record_str(1, "b", "happy")?;
    writer.record_bool(0, "c", true)?;
    writer.record_bool(1, "c", false)?;
    writer.record_ip_addr(0, "c", Ipv6Addr::from_bits(6))?;
    writer.record_ip_addr(1, "c", Ipv6Addr::from_bits(5))?;
    writer.record_datetime(1, "d", DateTime::from_timestamp_nanos(-1))?;
    Ok(writer)
}

// The bytes of the file of a writer with documents at these rows.
fn file(
    alloc: Global,
    writer: &ColumnarWriter,
    num_docs: RowId,
    rows: &[RowId],
) -> Result<Vec<u8>, ColumnarError> {
    let mut sink = VecSink::new(Vec::new(alloc), Vec::new(alloc));
    writer.serialize(num_docs, Some(rows), &mut sink)?;
    Ok(sink.into_bytes())
}

#[test]
fn columns_of_the_six_kinds_are_written_by_a_permutation(rt: HostRuntime) -> Result<(), Fail> {
    let writer = six(rt.alloc())?;
    assert_eq!(rt; file(rt.alloc(), &writer, 2, &[1, 0])?.as_slice(), SIX);
    Ok(())
}

// The numbers 1, 2 and 3 of u64 under "a".
fn three(alloc: Global) -> Result<ColumnarWriter, ColumnarError> {
    let mut writer = ColumnarWriter::new(alloc);
    writer.record_column_type("a", ColumnType::U64, false)?;
    writer.record_numerical(0, "a", NumericalValue::U64(1))?;
    writer.record_numerical(1, "a", NumericalValue::U64(2))?;
    writer.record_numerical(2, "a", NumericalValue::U64(3))?;
    Ok(writer)
}

#[test]
fn documents_stand_at_the_rows_of_a_permutation(rt: HostRuntime) -> Result<(), Fail> {
    let writer = three(rt.alloc())?;
    let turned = file(rt.alloc(), &writer, 3, &[2, 0, 1])?;
    assert_eq!(rt; turned.as_slice(), TWO_THREE_ONE);
    let refused = Err(ColumnarError::BadOrder);
    assert_eq!(rt; file(rt.alloc(), &writer, 3, &[0, 0, 1]), refused);
    Ok(())
}
