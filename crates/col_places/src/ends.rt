//! Rows of a column by ends of any kind.
ghost use Rattle.std.specs.Prelude.{◌≡◌, ℤ, int_le, length, true, IfSome, IsTrue, OnOk};
ghost use Rattle.std.specs.List.{list_any};
ghost use Rattle.col_dynamic.specs.Dynamic.{type_of, content_of};
ghost use Rattle.col_model.specs.Lookup.{is_between, row_of};
ghost use Rattle.col_model.specs.Table.{number};
ghost use Rattle.col_places.specs.Ranges as ranges;
ghost use Rattle.col_places.specs.Ranges.{are_cells_of, rows_between};
ghost use Rattle.col_program.specs.Queries as definitions;
ghost use Rattle.col_program.specs.Queries.{cell_of, num};
ghost use Rattle.col_query.specs.Sets.{docs_where};
ghost use Rattle.col_questions.specs.Steps.{end_of, is_end_of};
ghost use Rattle.col_types.specs.Kinds.{kind_of};

use col_common::RowId;
use col_dynamic::DynamicColumn;
use col_query::put_between;
use col_questions::QueryValue;
use col_types::ColumnType;
use std::alloc::AllocError;

// Puts the rows of a column that have a value from one end to the other, ascending; the list holds
// nothing else then. Ends of another kind than the column's values find none.
pub(crate) fn put_rows(
    column: &DynamicColumn,
    lo: &QueryValue,
    hi: &QueryValue,
    num_rows: RowId,
    rows: &mut Vec<RowId>,
) -> Result<(), AllocError>
    requires rows { length (content_of column.now).rows ≡ num_rows }
    requires cells { are_cells_of (type_of column.now) (content_of column.now) ≡ true }
    ensures { OnOk result (rows.new.items ≡ rows_between (type_of column.now)
        (end_of lo.now) (end_of hi.now) (content_of column.now) num_rows) }
{
    let column_type = column.column_type();
    if !is_kind(column_type, lo) {
        rows.clear();
        return Ok(());
    }
    if !is_kind(column_type, hi) {
        rows.clear();
        return Ok(());
    }
    put_kind(column, lo, hi, num_rows, rows)
}

// Whether an end is of the kind of a type's values.
fn is_kind(column_type: ColumnType, end: &QueryValue) -> bool
    ensures { result ≡ definitions.is_kind (kind_of column_type) (end_of end.now) }
{
    match end {
        QueryValue::Num(_) => matches!(
            column_type,
            ColumnType::I64 | ColumnType::U64 | ColumnType::Bool | ColumnType::DateTime
        ),
        QueryValue::Addr(_) => matches!(column_type, ColumnType::IpAddr),
        QueryValue::Term(_) => matches!(column_type, ColumnType::Str | ColumnType::Bytes),
    }
}

// The same by ends of the column's kind.
fn put_kind(
    column: &DynamicColumn,
    lo: &QueryValue,
    hi: &QueryValue,
    num_rows: RowId,
    rows: &mut Vec<RowId>,
) -> Result<(), AllocError>
    requires rows { length (content_of column.now).rows ≡ num_rows }
    requires cells { are_cells_of (type_of column.now) (content_of column.now) ≡ true }
    requires low { definitions.is_kind (type_of column.now) (end_of lo.now) ≡ true }
    requires high { definitions.is_kind (type_of column.now) (end_of hi.now) ≡ true }
    ensures { OnOk result (rows.new.items ≡ docs_where
        (λ r. list_any (is_between (cell_of (end_of lo.now)) (cell_of (end_of hi.now)))
        (row_of (content_of column.now) r)) num_rows) }
{
    match lo {
        QueryValue::Num(low) => put_numbers(column, *low, number_of(hi), num_rows, rows),
        _ => put_values(column, lo, hi, num_rows, rows),
    }
}

// The number that an end is, or 0.
fn number_of(end: &QueryValue) -> i128
    ensures { (z : ℤ) → end_of end.now ≡ num z → result ≡ z }
{
    match end {
        QueryValue::Num(number) => *number,
        _ => 0,
    }
}

// The same by numbers. Those that are no values of the column's type stand for the nearest ones
// that are.
fn put_numbers(
    column: &DynamicColumn,
    lo: i128,
    hi: i128,
    num_rows: RowId,
    rows: &mut Vec<RowId>,
) -> Result<(), AllocError>
    requires rows { length (content_of column.now).rows ≡ num_rows }
    requires cells { are_cells_of (type_of column.now) (content_of column.now) ≡ true }
    requires kind { definitions.is_kind (type_of column.now) (num lo) ≡ true }
    ensures { OnOk result (rows.new.items ≡ docs_where
        (λ r. list_any (is_between (number lo) (number hi)) (row_of (content_of column.now) r))
        num_rows) }
{
    let column_type = column.column_type();
    let low = raised(column_type, lo);
    let high = lowered(column_type, hi);
    if high < low {
        rows.clear();
        return Ok(());
    }
    put_clamped(column, low, high, num_rows, rows)
}

// The same by numbers of the column's type.
fn put_clamped(
    column: &DynamicColumn,
    low: i128,
    high: i128,
    num_rows: RowId,
    rows: &mut Vec<RowId>,
) -> Result<(), AllocError>
    requires rows { length (content_of column.now).rows ≡ num_rows }
    requires low { IsTrue (is_end_of (type_of column.now) (num low)) }
    requires high { IsTrue (is_end_of (type_of column.now) (num high)) }
    ensures { OnOk result (rows.new.items ≡ docs_where
        (λ r. list_any (is_between (number low) (number high)) (row_of (content_of column.now) r))
        num_rows) }
{
    let low = QueryValue::Num(low);
    let high = QueryValue::Num(high);
    put_values(column, &low, &high, num_rows, rows)
}

// An end that isn't below the least number of a type: it is at most the same numbers of the type.
fn raised(column_type: ColumnType, end: i128) -> i128
    ensures least { int_le (ranges.least_of (kind_of column_type)) result ≡ true }
    ensures same { (z : ℤ) → int_le (ranges.least_of (kind_of column_type)) z ≡ true
        → int_le result z ≡ int_le end z }
{
    let least = least_of(column_type);
    if end < least { least } else { end }
}

// An end that isn't above the greatest number of a type: it is at least the same numbers of the
// type.
fn lowered(column_type: ColumnType, end: i128) -> i128
    ensures greatest { int_le result (ranges.greatest_of (kind_of column_type)) ≡ true }
    ensures same { (z : ℤ) → int_le z (ranges.greatest_of (kind_of column_type)) ≡ true
        → int_le z result ≡ int_le z end }
{
    let greatest = greatest_of(column_type);
    if greatest < end { greatest } else { end }
}

fn least_of(column_type: ColumnType) -> i128
    ensures { result ≡ ranges.least_of (kind_of column_type) }
{
    match column_type {
        ColumnType::I64 | ColumnType::DateTime => i64::MIN as i128,
        _ => 0,
    }
}

fn greatest_of(column_type: ColumnType) -> i128
    ensures { result ≡ ranges.greatest_of (kind_of column_type) }
{
    match column_type {
        ColumnType::I64 | ColumnType::DateTime => i64::MAX as i128,
        ColumnType::U64 => u64::MAX as i128,
        _ => 1,
    }
}

// The same by values of the column's type.
fn put_values(
    column: &DynamicColumn,
    lo: &QueryValue,
    hi: &QueryValue,
    num_rows: RowId,
    rows: &mut Vec<RowId>,
) -> Result<(), AllocError>
    requires rows { length (content_of column.now).rows ≡ num_rows }
    requires low { IsTrue (is_end_of (type_of column.now) (end_of lo.now)) }
    requires high { IsTrue (is_end_of (type_of column.now) (end_of hi.now)) }
    ensures { OnOk result (rows.new.items ≡ docs_where
        (λ r. list_any (is_between (cell_of (end_of lo.now)) (cell_of (end_of hi.now)))
        (row_of (content_of column.now) r)) num_rows) }
{
    match put_between(column, lo, hi, 0..num_rows, rows) {
        Ok(()) => Ok(()),
        // Want of memory is the one refusal of a lookup.
        Err(_) => Err(AllocError),
    }
}
