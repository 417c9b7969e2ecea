//! What records the values of columns.
ghost use Rattle.std.specs.Prelude.{◌≡◌, [], IfOk, IfErr, true, false};
ghost use Rattle.col_common.specs.declared.error.ColumnarError.TheVariants as refusals;
ghost use Rattle.col_csv_import.specs.Columns.{IsOpen, TakesText, column_entry};
ghost use Rattle.col_types.specs.Kinds.{kind_of, numerical_kind_of};

use crate::values::{
    take_address, take_bytes, take_flag, take_signed, take_text, take_time, take_unsigned,
};
use col_common::{ColumnarError, DocId, Ipv6Addr};
use col_csv::CsvError;
use col_types::{ColumnType, NumericalType};
use col_writer_columns::{
    ColumnWriter, NumericalColumnWriter, PlainColumnWriter, StrOrBytesColumnWriter,
};
use std::alloc::Global;

/// What records the values of a column, by its type.
#[derive(Drop)]
pub(crate) enum Recorder {
    I64(NumericalColumnWriter),
    U64(NumericalColumnWriter),
    Bytes(StrOrBytesColumnWriter),
    Str(StrOrBytesColumnWriter),
    Bool(PlainColumnWriter<bool>),
    IpAddr(PlainColumnWriter<Ipv6Addr>),
    DateTime(PlainColumnWriter<u64>),
}

impl Recorder {
    ghost use Rattle.col_csv_import.specs.Recorders.{IsNew, entry_in, kind_in};

    /// What records values of a type.
    pub(crate) fn new(alloc: Global, column_type: ColumnType) -> Result<Recorder, ColumnarError>
        ensures ok { IfOk result (IsNew (kind_of column_type)) }
        ensures err { IfErr result (λ e. e ≡ refusals.OutOfMemory) }
    {
        match column_type {
            ColumnType::I64 => Ok(Recorder::I64(numbers(alloc, NumericalType::I64)?)),
            ColumnType::U64 => Ok(Recorder::U64(numbers(alloc, NumericalType::U64)?)),
            ColumnType::Bytes => Ok(Recorder::Bytes(texts(alloc))),
            ColumnType::Str => Ok(Recorder::Str(texts(alloc))),
            ColumnType::Bool => Ok(Recorder::Bool(plain(alloc))),
            ColumnType::IpAddr => Ok(Recorder::IpAddr(plain(alloc))),
            ColumnType::DateTime => Ok(Recorder::DateTime(plain(alloc))),
        }
    }

    /// Records the value of a row that a text spells. The memory of `bytes` is that of bytes that
    /// are spelled.
    pub(crate) fn take_value(
        &mut self,
        row: DocId,
        text: &[u8],
        bytes: &mut Vec<u8>,
    ) -> Result<(), CsvError>
        requires { IsOpen (kind_in self.old) row (entry_in self.old) }
        ensures kind { kind_in self.new ≡ kind_in self.old }
        ensures taken { TakesText (kind_in self.old) row (entry_in self.old) (entry_in self.new)
            result text.now }
    {
        match self {
            Recorder::I64(column) => take_signed(column, row, text),
            Recorder::U64(column) => take_unsigned(column, row, text),
            Recorder::Bytes(column) => take_bytes(column, row, text, bytes),
            Recorder::Str(column) => take_text(column, row, text),
            Recorder::Bool(column) => take_flag(column, row, text),
            Recorder::IpAddr(column) => take_address(column, row, text),
            Recorder::DateTime(column) => take_time(column, row, text),
        }
    }
}

// Numbers of a type. No number is recorded that its type could refuse.
fn numbers(
    alloc: Global,
    numerical_type: NumericalType,
) -> Result<NumericalColumnWriter, ColumnarError>
    ensures ok { IfOk result (λ e. e ≡ column_entry (numerical_kind_of numerical_type) []) }
    ensures err { IfErr result (λ e. e ≡ refusals.OutOfMemory) }
{
    let mut column = NumericalColumnWriter::new(alloc);
    column.force_numerical_type(numerical_type)?;
    Ok(column)
}

// Texts, whose type is asked for.
fn texts(alloc: Global) -> StrOrBytesColumnWriter
    ensures values { result.values ≡ [] }
    ensures forced { result.is_forced ≡ true }
    ensures sorts { result.sorts ≡ false }
{
    let mut column = StrOrBytesColumnWriter::new(alloc);
    column.set_type(false);
    column
}

// Other values, whose type is asked for.
fn plain<T: Copy>(alloc: Global) -> PlainColumnWriter<T>
    ensures column { result.column ≡ [] }
    ensures forced { result.is_forced ≡ true }
{
    PlainColumnWriter {
        column: ColumnWriter::new(alloc),
        is_forced: true,
    }
}
