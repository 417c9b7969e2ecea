//! A column that records, whichever its category.
ghost use Rattle.std.specs.Prelude.{◌≡◌, true, length, IfOk};
ghost use Rattle.col_common.specs.Ascending.{are_below};
ghost use Rattle.col_model.specs.Category.{category_of, category_place};
ghost use Rattle.col_model.specs.ColumnType as types;
ghost use Rattle.col_writer_columns.specs.Answers.{Gives};
ghost use Rattle.col_writer_columns.specs.Columns.{text_entry, plain_entry};
ghost use Rattle.col_writer_columns.specs.Values.{time_cell};
ghost use Rattle.col_types.specs.Cells.{bool_cell, unsigned_cell};
ghost use Rattle.col_types.specs.Kinds.{kind_of};
ghost use Rattle.col_writer_file.specs.OnRows.{recorded_docs, type_on, CanStand, WritesOn};

use crate::checks::{
    check_addresses, check_bools, check_bytes, check_numbers, check_strs, check_times,
};
use crate::numbers::serialize_numbers;
use crate::plain::{serialize_addresses, serialize_bools, serialize_times};
use crate::texts::serialize_texts;
use col_common::{ColumnarError, Ipv6Addr, Sink};
use col_types::ColumnType;
use col_writer_columns::{NumericalColumnWriter, PlainColumnWriter, StrOrBytesColumnWriter};
use col_writer_rows::{DocList, RowOrder};
use std::alloc::Global;

/// A column that records.
#[derive(Clone, Copy)]
pub enum EntryColumn<'a> {
    Numerical(&'a NumericalColumnWriter),
    Bytes(&'a StrOrBytesColumnWriter),
    Str(&'a StrOrBytesColumnWriter),
    Bool(&'a PlainColumnWriter<bool>),
    IpAddr(&'a PlainColumnWriter<Ipv6Addr>),
    DateTime(&'a PlainColumnWriter<u64>),
}

impl EntryColumn<'_> {
    ghost use Rattle.col_writer_file.specs.EntryColumns.{category_in, entry_in};

    /// The place of the category among the categories.
    pub fn place(&self) -> u8
        ensures { result ≡ category_place (category_in self.now) }
    {
        match self {
            EntryColumn::Numerical(_) => 0,
            EntryColumn::Bytes(_) => 1,
            EntryColumn::Str(_) => 2,
            EntryColumn::Bool(_) => 3,
            EntryColumn::IpAddr(_) => 4,
            EntryColumn::DateTime(_) => 5,
        }
    }

    /// The documents of the records.
    pub fn docs(&self) -> &DocList
        ensures { result.now ≡ recorded_docs (entry_in self.now) }
    {
        match self {
            EntryColumn::Numerical(column) => number_docs(column),
            EntryColumn::Bytes(column) => bytes_docs(column),
            EntryColumn::Str(column) => str_docs(column),
            EntryColumn::Bool(column) => bool_docs(column),
            EntryColumn::IpAddr(column) => address_docs(column),
            EntryColumn::DateTime(column) => time_docs(column),
        }
    }

    /// The type that the column is written with, or its first refusal.
    pub fn check(&self, alloc: Global, order: &RowOrder) -> Result<ColumnType, ColumnarError>
        requires { are_below (length order.now) (recorded_docs (entry_in self.now)) ≡ true }
        ensures gives { Gives kind_of result
            (type_on (category_in self.now) (entry_in self.now) order.now) }
        ensures category { IfOk result (λ t. category_of (kind_of t) ≡ category_in self.now) }
    {
        match self {
            EntryColumn::Numerical(column) => check_numbers(column, order),
            EntryColumn::Bytes(column) => check_bytes(column, order),
            EntryColumn::Str(column) => check_strs(column, order),
            EntryColumn::Bool(column) => check_bools(column, order),
            EntryColumn::IpAddr(column) => check_addresses(alloc, column, order),
            EntryColumn::DateTime(column) => check_times(column, order),
        }
    }

    /// Writes the bytes of a column that refuses nothing.
    pub fn serialize<K: Sink>(
        &self,
        alloc: Global,
        order: &RowOrder,
        sink: &mut K,
    ) -> Result<(), ColumnarError>
        requires { CanStand (category_in self.now) (entry_in self.now) order.now }
        ensures { WritesOn (K.seen sink.old) (K.seen sink.new) result (category_in self.now)
            (entry_in self.now) order.now }
    {
        match self {
            EntryColumn::Numerical(column) => serialize_numbers(alloc, column, order, sink),
            EntryColumn::Bytes(column) => serialize_texts(alloc, column, order, sink),
            EntryColumn::Str(column) => serialize_texts(alloc, column, order, sink),
            EntryColumn::Bool(column) => serialize_bools(alloc, column, order, sink),
            EntryColumn::IpAddr(column) => serialize_addresses(alloc, column, order, sink),
            EntryColumn::DateTime(column) => serialize_times(alloc, column, order, sink),
        }
    }
}

// The documents of numbers.
fn number_docs(column: &NumericalColumnWriter) -> &DocList
    ensures { result.now ≡ recorded_docs column.now }
{
    column.codes().docs()
}

// The documents of bytes.
fn bytes_docs(column: &StrOrBytesColumnWriter) -> &DocList
    ensures { result.now ≡ recorded_docs (text_entry types.bytes column.now) }
{
    column.parts().1.docs()
}

// The documents of text.
fn str_docs(column: &StrOrBytesColumnWriter) -> &DocList
    ensures { result.now ≡ recorded_docs (text_entry types.str column.now) }
{
    column.parts().1.docs()
}

// The documents of bools.
fn bool_docs(column: &PlainColumnWriter<bool>) -> &DocList
    ensures { result.now ≡ recorded_docs (plain_entry types.bool bool_cell column.now) }
{
    column.column.docs()
}

// The documents of addresses.
fn address_docs(column: &PlainColumnWriter<Ipv6Addr>) -> &DocList
    ensures { result.now ≡ recorded_docs (plain_entry types.ip unsigned_cell column.now) }
{
    column.column.docs()
}

// The documents of points in time.
fn time_docs(column: &PlainColumnWriter<u64>) -> &DocList
    ensures { result.now ≡ recorded_docs (plain_entry types.datetime time_cell column.now) }
{
    column.column.docs()
}
