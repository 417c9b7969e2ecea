//! Columns of numbers.
ghost use Rattle.std.specs.Prelude.{◌≡◌, ◌<◌, ◌^◌, true, false, map, length, Some, None, IfOk};
ghost use Rattle.col_common.specs.Ascending.{are_below};
ghost use Rattle.col_model.specs.Category as categories;
ghost use Rattle.col_model.specs.ColumnType as types;
ghost use Rattle.col_model.specs.Written.{entry_type, is_past_ties};
ghost use Rattle.col_writer_rows.specs.Counted.{SerializesColumn};
ghost use Rattle.col_writer_columns.specs.Values.{unsigned_of};
ghost use Rattle.col_writer_file.specs.OnRows.{recorded_docs, content_on, Fit64, CanStand, WritesOn};

use col_common::{ColumnarError, SIGN_BIT, Sink};
use col_types::NumericalType;
use col_writer_columns::NumericalColumnWriter;
use col_writer_rows::{RowOrder, serialize_number_column, serialize_tie_column};
use std::alloc::{AllocError, Global};

/// Writes the column of an entry of numbers.
pub(crate) fn serialize_numbers<K: Sink>(
    alloc: Global,
    column: &NumericalColumnWriter,
    order: &RowOrder,
    sink: &mut K,
) -> Result<(), ColumnarError>
    requires { CanStand categories.numerical column.now order.now }
    ensures { WritesOn (K.seen sink.old) (K.seen sink.new) result categories.numerical
        column.now order.now }
{
    match column.tie_start() {
        Some(start) => serialize_ties(alloc, column, start, order, sink),
        None => serialize_untied(alloc, column, order, sink),
    }
}

// Writes the numbers from a tie start on.
fn serialize_ties<K: Sink>(
    alloc: Global,
    column: &NumericalColumnWriter,
    start: i64,
    order: &RowOrder,
    sink: &mut K,
) -> Result<(), ColumnarError>
    requires tied { column.now.tie_start ≡ Some start }
    requires fits { is_past_ties (length order.now) (Some start) ≡ false }
    ensures { SerializesColumn (K.seen sink.old) (K.seen sink.new) result types.i64
        (length order.now) (content_on column.now order.now) }
{
    // That what was recorded are numbers, which have no texts.
    let _codes = column.codes();
    serialize_tie_column(alloc, start, order.num_rows(), sink)
}

// Writes the numbers that were recorded.
fn serialize_untied<K: Sink>(
    alloc: Global,
    column: &NumericalColumnWriter,
    order: &RowOrder,
    sink: &mut K,
) -> Result<(), ColumnarError>
    requires below { are_below (length order.now) (recorded_docs column.now) ≡ true }
    requires untied { column.now.tie_start ≡ None }
    ensures { WritesOn (K.seen sink.old) (K.seen sink.new) result categories.numerical
        column.now order.now }
{
    column.numbers_have_its_type();
    let codes = column.codes();
    let stored = codes.values();
    numbers_fit(stored);
    if is_unsigned(column) {
        let numbers = unsigned_numbers(alloc, stored)?;
        return serialize_number_column(alloc, codes.docs(), &numbers, order, sink);
    }
    // Signed numbers have the codes that a column stores.
    serialize_number_column(alloc, codes.docs(), stored, order, sink)
}

// Whether the numbers are of the unsigned type.
fn is_unsigned(column: &NumericalColumnWriter) -> bool
    ensures unsigned { result ≡ true →
        entry_type categories.numerical column.now ≡ Some types.u64 }
    ensures signed { result ≡ false → (t : types.ColumnType) →
        entry_type categories.numerical column.now ≡ Some t → t ≡ types.i64 }
{
    match column.numerical_type() {
        Some(NumericalType::U64) => true,
        _ => false,
    }
}

// The unsigned numbers that have these codes.
fn unsigned_numbers(alloc: Global, codes: &[u64]) -> Result<Vec<u64>, AllocError>
    ensures { IfOk result (λ v. v.items ≡ map unsigned_of codes.now) }
{
    codes
        .iter()
        .map(|code| code.wrapping_add(SIGN_BIT))
        .collect(alloc)
}

// That each number fits 64 bits.
fn numbers_fit(numbers: &[u64])
    ensures { Fit64 numbers.now }
{
    // That each item of such a list has the range of its type.
    let _ = numbers;
}
