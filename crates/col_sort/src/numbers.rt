//! Rows by the first numbers of columns.
ghost use Rattle.std.specs.Prelude.{◌≡◌, ◌<◌, ◌^◌, true, length, map, IfOk, IfSome};
ghost use Rattle.col_model.specs.Category.{numerical};
ghost use Rattle.col_model.specs.ColumnType.{ColumnType};
ghost use Rattle.col_model.specs.ColumnType as types;
ghost use Rattle.col_order.specs.Orders.{address_of};
ghost use Rattle.col_dynamic.specs.Dynamic.{type_of};
ghost use Rattle.col_merge_slot.specs.Segments.{HaveRows};
ghost use Rattle.col_sort.specs.Columns.{AreOfType, SortsColumns};

use crate::by_columns::rows_by_columns;
use crate::column_key::ColumnKey;
use col_common::{RowAddr, RowId};
use col_dynamic::DynamicColumn;
use std::alloc::{AllocError, Global};

/// All rows of segments by the numbers of their columns, or by falling ones. Where all columns are
/// of one type, keys are of that type.
pub(crate) fn rows_by_numbers(
    alloc: Global,
    columns: &[Option<DynamicColumn>],
    counts: &[RowId],
    reversed: bool,
) -> Result<Vec<RowAddr>, AllocError>
    requires rows { HaveRows counts.now columns.now }
    requires segments { length counts.now < 2 ^ 32 }
    ensures { IfOk result (λ rows. SortsColumns numerical counts.now columns.now reversed
        (map address_of rows.items)) }
{
    if are_of_type::<u64>(columns) {
        return rows_by_columns::<u64>(alloc, columns, counts, reversed);
    }
    if are_of_type::<i64>(columns) {
        return rows_by_columns::<i64>(alloc, columns, counts, reversed);
    }
    rows_by_columns::<i128>(alloc, columns, counts, reversed)
}

// Whether all columns have such values.
fn are_of_type<K: TypedKey>(columns: &[Option<DynamicColumn>]) -> bool
    ensures { (result ≡ true) → AreOfType K.column_type columns.now }
{
    for column in columns {
        if !is_of_type::<K>(column) {
            return false;
        }
    }
    true
}

// The same of one, where it is there.
fn is_of_type<K: TypedKey>(column: &Option<DynamicColumn>) -> bool
    ensures { (result ≡ true) → IfSome column.now (λ c. type_of c ≡ K.column_type) }
{
    match column {
        Some(column) => K::has_type(column),
        None => true,
    }
}

// Keys that are the values of columns of one type.
trait TypedKey: ColumnKey {
    // The type of these columns.
    ghost column_type: { ColumnType };

    // Whether the column is one of them.
    fn has_type(column: &DynamicColumn) -> bool
        ensures { (result ≡ true) → type_of column.now ≡ column_type };
}

impl TypedKey for u64 {
    ghost column_type = { types.u64 };

    fn has_type(column: &DynamicColumn) -> bool {
        matches!(column, DynamicColumn::U64(_))
    }
}

impl TypedKey for i64 {
    ghost column_type = { types.i64 };

    fn has_type(column: &DynamicColumn) -> bool {
        matches!(column, DynamicColumn::I64(_))
    }
}
