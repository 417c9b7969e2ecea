//! Columns of bools, of points in time and of addresses.
ghost use Rattle.std.specs.Prelude.{◌≡◌, ◌^◌, true, false, nat_le, map, length, IfOk};
ghost use Rattle.col_common.specs.Ascending.{are_below};
ghost use Rattle.col_model.specs.ColumnType as types;
ghost use Rattle.col_model.specs.Limits.{has_many_codes};
ghost use Rattle.col_writer_rows.specs.Counted.{SerializesColumn};
ghost use Rattle.col_writer_rows.specs.Documents.{docs_of};
ghost use Rattle.col_writer_columns.specs.Columns.{plain_entry};
ghost use Rattle.col_writer_columns.specs.Values.{time_cell};
ghost use Rattle.col_types.specs.Cells.{bool_cell, unsigned_cell};
ghost use Rattle.col_values.specs.Codes.{bool_code};
ghost use Rattle.col_writer_file.specs.OnRows.{rows_on, content_on};

use col_common::{ColumnarError, Ipv6Addr, Sink};
use col_writer_columns::PlainColumnWriter;
use col_writer_rows::{
    RowOrder, need_too_many_codes, serialize_address_column, serialize_number_column,
};
use std::alloc::{AllocError, Global};

/// Writes the column of an entry of bools.
pub(crate) fn serialize_bools<K: Sink>(
    alloc: Global,
    column: &PlainColumnWriter<bool>,
    order: &RowOrder,
    sink: &mut K,
) -> Result<(), ColumnarError>
    requires { are_below (length order.now) (docs_of column.now.column) ≡ true }
    ensures { SerializesColumn (K.seen sink.old) (K.seen sink.new) result types.bool
        (length order.now) (content_on (plain_entry types.bool bool_cell column.now) order.now) }
{
    let numbers = numbers_of_bools(alloc, column.column.values())?;
    serialize_number_column(alloc, column.column.docs(), &numbers, order, sink)
}

// Bools as a column stores them.
fn numbers_of_bools(alloc: Global, values: &[bool]) -> Result<Vec<u64>, AllocError>
    ensures { IfOk result (λ v. v.items ≡ map bool_code values.now) }
{
    values.iter().map(|value| u64::from(*value)).collect(alloc)
}

/// Writes the column of an entry of points in time.
pub(crate) fn serialize_times<K: Sink>(
    alloc: Global,
    column: &PlainColumnWriter<u64>,
    order: &RowOrder,
    sink: &mut K,
) -> Result<(), ColumnarError>
    requires { are_below (length order.now) (docs_of column.now.column) ≡ true }
    ensures { SerializesColumn (K.seen sink.old) (K.seen sink.new) result types.datetime
        (length order.now)
        (content_on (plain_entry types.datetime time_cell column.now) order.now) }
{
    let codes = column.column.values();
    serialize_number_column(alloc, column.column.docs(), codes, order, sink)
}

/// Whether 32 bits don't count the codes that the addresses of the rows need.
pub(crate) fn have_too_many_codes(
    alloc: Global,
    column: &PlainColumnWriter<Ipv6Addr>,
    order: &RowOrder,
) -> Result<bool, AllocError>
    requires { are_below (length order.now) (docs_of column.now.column) ≡ true }
    ensures { IfOk result (λ b. b ≡ has_many_codes types.ip
        (rows_on (plain_entry types.ip unsigned_cell column.now) order.now)) }
{
    let numbers = numbers_of_addresses(alloc, column.column.values())?;
    need_too_many_codes(alloc, column.column.docs(), &numbers, order)
}

/// Writes the column of an entry of addresses.
pub(crate) fn serialize_addresses<K: Sink>(
    alloc: Global,
    column: &PlainColumnWriter<Ipv6Addr>,
    order: &RowOrder,
    sink: &mut K,
) -> Result<(), ColumnarError>
    requires below { are_below (length order.now) (docs_of column.now.column) ≡ true }
    requires codes { has_many_codes types.ip
        (rows_on (plain_entry types.ip unsigned_cell column.now) order.now) ≡ false }
    ensures { SerializesColumn (K.seen sink.old) (K.seen sink.new) result types.ip
        (length order.now) (content_on (plain_entry types.ip unsigned_cell column.now) order.now) }
{
    let numbers = numbers_of_addresses(alloc, column.column.values())?;
    serialize_address_column(alloc, column.column.docs(), &numbers, order, sink)
}

// Addresses as numbers.
fn numbers_of_addresses(alloc: Global, values: &[Ipv6Addr]) -> Result<Vec<u128>, AllocError>
    ensures { IfOk result (λ v. v.items ≡ values.now) }
{
    values.iter().map(|value| value.to_bits()).collect(alloc)
}
