//! How many rows have a value.
ghost use Rattle.std.specs.Prelude.{◌≡◌, ◌^◌, ◌<◌, length};
ghost use Rattle.col_dynamic.specs.Dynamic.{dynamic_shape, value_count};
ghost use Rattle.col_index.specs.MultiValues.{value_counts_of};
ghost use Rattle.col_index.specs.Indexes.{shape_of};
ghost use Rattle.col_model.specs.Positions.{rows_with_value};
ghost use Rattle.col_text.specs.Columns.{IsCounted, counts_by};

use col_common::{DocId, Iterable};
use col_dynamic::DynamicColumn;
use col_index::{ColumnIndex, MultiValueIndex};
use col_values::ColumnValues;

/// That the index of a column counts just its values.
pub(crate) fn values_are_counted(column: &DynamicColumn)
    ensures { IsCounted (dynamic_shape column.now) (value_count column.now) }
{
    match column {
        DynamicColumn::Bool(column) => column.values_are_counted(),
        DynamicColumn::I64(column) => column.values_are_counted(),
        DynamicColumn::U64(column) => column.values_are_counted(),
        DynamicColumn::IpAddr(column) => column.values_are_counted(),
        DynamicColumn::DateTime(column) => column.values_are_counted(),
        DynamicColumn::Bytes(column) => column.ordinals_are_told(),
        DynamicColumn::Str(column) => column.bytes_column().ordinals_are_told(),
    }
}

/// How many rows of a column have a value.
pub(crate) fn num_rows_with_values(column: &DynamicColumn) -> u32
    ensures { result
        ≡ length (rows_with_value (counts_by (dynamic_shape column.now) (value_count column.now))) }
{
    rows_counted(column.column_index(), column.num_values())
}

// How many rows have a value by an index over so many values.
fn rows_counted(index: &ColumnIndex, num_values: u32) -> u32
    ensures { result ≡ length (rows_with_value (counts_by (shape_of index.now) num_values)) }
{
    match index {
        ColumnIndex::Empty { .. } => 0,
        ColumnIndex::Full => num_values,
        ColumnIndex::Optional(set) => {
            set.rows_rise();
            set.num_non_nulls()
        }
        ColumnIndex::Multivalued(index) => rows_of_several(index),
    }
}

// The same where rows have any number of values: there is a start more than such rows. In version 1
// each row has a start, so that they are walked.
fn rows_of_several(index: &MultiValueIndex) -> u32
    ensures { result ≡ length (rows_with_value (value_counts_of index.now)) }
{
    match index {
        MultiValueIndex::MultiValueIndexV1(_) => {
            // That there are fewer than 2 ^ 32 rows is known of their number.
            let _count = index.num_docs();
            count_rows(&index.iter_non_null_docs())
        }
        MultiValueIndex::MultiValueIndexV2(index) => index.start_index_column().num_vals() - 1,
    }
}

// How many rows a walk has.
fn count_rows<I: Iterable<DocId>>(rows: &I) -> u32
    requires { length (I.items rows.now) < 2 ^ 32 }
    ensures { result ≡ length (I.items rows.now) }
{
    let mut count = 0;
    let mut at = rows.walk();
    while let Some(_doc) = rows.next(&mut at) {
        count += 1;
    }
    count
}
