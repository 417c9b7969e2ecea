//! Tests of columns, before their first byte.
ghost use Rattle.std.specs.Prelude.{◌≡◌, true, length, IfOk};
ghost use Rattle.col_common.specs.Ascending.{are_below};
ghost use Rattle.col_model.specs.Category as categories;
ghost use Rattle.col_model.specs.Category.{category_of};
ghost use Rattle.col_model.specs.ColumnType as types;
ghost use Rattle.col_model.specs.Written.{is_past_ties};
ghost use Rattle.col_writer_rows.specs.Documents.{docs_of};
ghost use Rattle.col_writer_columns.specs.Answers.{Gives};
ghost use Rattle.col_writer_columns.specs.Columns.{text_entry, plain_entry};
ghost use Rattle.col_writer_columns.specs.Values.{time_cell};
ghost use Rattle.col_types.specs.Cells.{bool_cell, unsigned_cell};
ghost use Rattle.col_types.specs.Kinds.{kind_of};
ghost use Rattle.col_writer_file.specs.OnRows.{type_on};

use crate::plain::have_too_many_codes;
use crate::texts::have_too_long_terms;
use col_common::{ColumnarError, Ipv6Addr, RowId};
use col_types::ColumnType;
use col_writer_columns::{NumericalColumnWriter, PlainColumnWriter, StrOrBytesColumnWriter};
use col_writer_rows::{RowOrder, is_past_ties};
use std::alloc::Global;

/// The type of a column of numbers, or its first refusal.
pub(crate) fn check_numbers(
    column: &NumericalColumnWriter,
    order: &RowOrder,
) -> Result<ColumnType, ColumnarError>
    ensures gives { Gives kind_of result (type_on categories.numerical column.now order.now) }
    ensures category { IfOk result (λ t. category_of (kind_of t) ≡ categories.numerical) }
{
    // That 32 bits count the rows and the numbers, and that their type holds these.
    order.documents_have_rows();
    column.numbers_have_its_type();
    let codes = column.codes();
    let _num_values = codes.num_values();
    let Some(numerical_type) = column.numerical_type() else {
        return Err(ColumnarError::NumericalConflict);
    };
    if starts_past_ties(column, order.num_rows()) {
        return Err(ColumnarError::TieBreakerStart);
    }
    Ok(ColumnType::from(numerical_type))
}

// Whether so many numbers from the tie start on, where there is one, leave the signed numbers of
// 32 bits.
fn starts_past_ties(column: &NumericalColumnWriter, num_docs: RowId) -> bool
    ensures { result ≡ is_past_ties num_docs column.now.tie_start }
{
    match column.tie_start() {
        Some(start) => is_past_ties(start, num_docs),
        None => false,
    }
}

/// The type of a column of texts, unless its dictionary is too long.
pub(crate) fn check_bytes(
    column: &StrOrBytesColumnWriter,
    order: &RowOrder,
) -> Result<ColumnType, ColumnarError>
    ensures gives { Gives kind_of result
        (type_on categories.bytes (text_entry types.bytes column.now) order.now) }
    ensures category { IfOk result (λ t. category_of (kind_of t) ≡ categories.bytes) }
{
    // That 32 bits count the rows and the values.
    order.documents_have_rows();
    let _num_values = column.num_values();
    if have_too_long_terms(column) {
        return Err(ColumnarError::TooLarge);
    }
    Ok(ColumnType::Bytes)
}

/// The same for text.
pub(crate) fn check_strs(
    column: &StrOrBytesColumnWriter,
    order: &RowOrder,
) -> Result<ColumnType, ColumnarError>
    ensures gives { Gives kind_of result
        (type_on categories.str (text_entry types.str column.now) order.now) }
    ensures category { IfOk result (λ t. category_of (kind_of t) ≡ categories.str) }
{
    // That 32 bits count the rows and the values.
    order.documents_have_rows();
    let _num_values = column.num_values();
    if have_too_long_terms(column) {
        return Err(ColumnarError::TooLarge);
    }
    Ok(ColumnType::Str)
}

/// The type of a column of bools, which refuses nothing.
pub(crate) fn check_bools(
    column: &PlainColumnWriter<bool>,
    order: &RowOrder,
) -> Result<ColumnType, ColumnarError>
    ensures gives { Gives kind_of result
        (type_on categories.bool (plain_entry types.bool bool_cell column.now) order.now) }
    ensures category { IfOk result (λ t. category_of (kind_of t) ≡ categories.bool) }
{
    // That 32 bits count the rows and the values.
    order.documents_have_rows();
    let _num_values = column.column.num_values();
    Ok(ColumnType::Bool)
}

/// The type of a column of points in time, which refuses nothing.
pub(crate) fn check_times(
    column: &PlainColumnWriter<u64>,
    order: &RowOrder,
) -> Result<ColumnType, ColumnarError>
    ensures gives { Gives kind_of result
        (type_on categories.datetime (plain_entry types.datetime time_cell column.now) order.now) }
    ensures category { IfOk result (λ t. category_of (kind_of t) ≡ categories.datetime) }
{
    // That 32 bits count the rows and the values.
    order.documents_have_rows();
    let _num_values = column.column.num_values();
    Ok(ColumnType::DateTime)
}

/// The type of a column of addresses, unless they need too many codes.
pub(crate) fn check_addresses(
    alloc: Global,
    column: &PlainColumnWriter<Ipv6Addr>,
    order: &RowOrder,
) -> Result<ColumnType, ColumnarError>
    requires { are_below (length order.now) (docs_of column.now.column) ≡ true }
    ensures gives { Gives kind_of result
        (type_on categories.ip (plain_entry types.ip unsigned_cell column.now) order.now) }
    ensures category { IfOk result (λ t. category_of (kind_of t) ≡ categories.ip) }
{
    // That 32 bits count the rows and the values.
    order.documents_have_rows();
    let _num_values = column.column.num_values();
    if have_too_many_codes(alloc, column, order)? {
        return Err(ColumnarError::TooLarge);
    }
    Ok(ColumnType::IpAddr)
}
