//! Record calls that are refused, and the file that is written behind them.
use col_common::{ColumnarError, DateTime, Ipv6Addr, VecSink};
use col_types::{ColumnType, NumericalValue};
use col_writer::ColumnarWriter;
use std::alloc::Global;
use std::test::Fail;

// A record call that is refused where each column has a record of document 1.
#[derive(Clone, Copy, Debug)]
enum Call {
    EarlierNumber,
    EarlierFlag,
    EarlierTime,
    EarlierAddress,
    EarlierText,
    EarlierBytes,
    NumberOfAnotherType,
    AnotherType,
    TypeOfOtherNumbers,
    TieOfAnotherType,
}

const CALLS: [(Call, ColumnarError); 10] = [
    (Call::EarlierNumber, ColumnarError::DocOrder),
    (Call::EarlierFlag, ColumnarError::DocOrder),
    (Call::EarlierTime, ColumnarError::DocOrder),
    (Call::EarlierAddress, ColumnarError::DocOrder),
    (Call::EarlierText, ColumnarError::DocOrder),
    (Call::EarlierBytes, ColumnarError::DocOrder),
    (Call::NumberOfAnotherType, ColumnarError::ForcedType),
    (Call::AnotherType, ColumnarError::ForcedType),
    (Call::TypeOfOtherNumbers, ColumnarError::ForcedType),
    (Call::TieOfAnotherType, ColumnarError::ForcedType),
];

// A record of document 1 in a column of each kind: "free" isn't forced to a type, "forced" is one
// of u64.
fn of_each_kind(alloc: Global) -> Result<ColumnarWriter, ColumnarError> {
    let mut writer = ColumnarWriter::new(alloc);
    writer.record_column_type("forced", ColumnType::U64, false)?;
    writer.record_numerical(1, "forced", NumericalValue::U64(3))?;
    writer.record_numerical(1, "free", NumericalValue::I64(-1))?;
    writer.record_bool(1, "flag", true)?;
    writer.record_datetime(1, "time", DateTime::from_timestamp_nanos(7))?;
    writer.record_ip_addr(1, "address", Ipv6Addr::from_bits(9))?;
    writer.record_str(1, "text", "tax")?;
    writer.record_bytes(1, "bytes", b"tax")?;
    Ok(writer)
}

fn make(call: Call, writer: &mut ColumnarWriter) -> Result<(), ColumnarError> {
    match call {
        Call::EarlierNumber => writer.record_numerical(0, "free", NumericalValue::U64(1)),
        Call::EarlierFlag => writer.record_bool(0, "flag", false),
        Call::EarlierTime => writer.record_datetime(0, "time", DateTime::default()),
        Call::EarlierAddress => writer.record_ip_addr(0, "address", Ipv6Addr::default()),
        Call::EarlierText => writer.record_str(0, "text", "new"),
        Call::EarlierBytes => writer.record_bytes(0, "bytes", b"new"),
        Call::NumberOfAnotherType => writer.record_numerical(2, "forced", NumericalValue::I64(1)),
        Call::AnotherType => writer.record_column_type("forced", ColumnType::I64, false),
        Call::TypeOfOtherNumbers => writer.record_column_type("free", ColumnType::U64, false),
        Call::TieOfAnotherType => writer.record_tie_breaker_column("forced", 0),
    }
}

// The file of three documents behind a call, which may be left out, and what the call answers.
fn behind(
    alloc: Global,
    call: Option<Call>,
) -> Result<(Result<(), ColumnarError>, Vec<u8>), ColumnarError> {
    let mut writer = of_each_kind(alloc)?;
    let answer = match call {
        Some(call) => make(call, &mut writer),
        None => Ok(()),
    };
    writer.record_numerical(2, "free", NumericalValue::I64(5))?;
    let mut sink = VecSink::new(Vec::new(alloc), Vec::new(alloc));
    writer.serialize(3, None, &mut sink)?;
    Ok((answer, sink.into_bytes()))
}

#[test]
fn the_file_behind_a_refused_record_is_that_without_it(rt: HostRuntime) -> Result<(), Fail> {
    let alloc = rt.alloc();
    let (_, wanted) = behind(alloc, None)?;
    for (call, refusal) in CALLS {
        let (answer, file) = behind(alloc, Some(call))?;
        assert_eq!(rt; answer, Err(refusal), "{call:?}");
        assert_eq!(rt; file, wanted, "{call:?}");
    }
    Ok(())
}
