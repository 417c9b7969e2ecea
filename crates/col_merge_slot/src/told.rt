//! What open columns tell.
ghost use Rattle.std.specs.List.{AllByRecursion};
ghost use Rattle.col_dynamic.specs.declared.dynamic_column.DynamicColumn.TheVariants as columns;
ghost use Rattle.col_merge_slot.specs.Kept.{IsCountedBy, IsCountedIn, IsOwn, IsOwnIn};

use col_common::DateTime;
use col_dynamic::{BytesColumn, DynamicColumn, IpColumn, NumColumn, StrColumn};

/// That each column has just the values that its index counts.
pub(crate) fn columns_are_counted(columns: &[Option<DynamicColumn>])
    ensures { AllByRecursion IsCountedIn columns.now }
{
    for column in columns {
        is_counted_in(column);
    }
}

fn is_counted_in(column: &Option<DynamicColumn>)
    ensures { IsCountedIn column.now }
{
    match column {
        Some(column) => is_counted(column),
        None => {}
    }
}

fn is_counted(column: &DynamicColumn)
    ensures { IsCountedBy column.now }
{
    match column {
        DynamicColumn::Bool(column) => column.values_are_counted(),
        DynamicColumn::I64(column) => column.values_are_counted(),
        DynamicColumn::U64(column) => column.values_are_counted(),
        DynamicColumn::IpAddr(column) => column.values_are_counted(),
        DynamicColumn::DateTime(column) => column.values_are_counted(),
        DynamicColumn::Bytes(column) => column.ords().values_are_counted(),
        DynamicColumn::Str(column) => column.bytes_column().ords().values_are_counted(),
    }
}

/// That each cell of a column is of the column's own type.
pub(crate) fn cells_are_told(columns: &[Option<DynamicColumn>])
    ensures { AllByRecursion IsOwnIn columns.now }
{
    for column in columns {
        is_own_in(column);
    }
}

fn is_own_in(column: &Option<DynamicColumn>)
    ensures { IsOwnIn column.now }
{
    match column {
        Some(column) => is_own(column),
        None => {}
    }
}

fn is_own(column: &DynamicColumn)
    ensures { IsOwn column.now }
{
    match column {
        DynamicColumn::Bool(column) => flags_are_own(column),
        DynamicColumn::I64(column) => signed_are_own(column),
        DynamicColumn::U64(column) => unsigned_are_own(column),
        DynamicColumn::IpAddr(column) => addresses_are_own(column),
        DynamicColumn::DateTime(column) => times_are_own(column),
        DynamicColumn::Bytes(column) => bytes_are_own(column),
        DynamicColumn::Str(column) => texts_are_own(column),
    }
}

fn flags_are_own(column: &NumColumn<bool>)
    ensures { IsOwn (columns.Bool column.now) }
{
    column.values_are_counted();
}

fn signed_are_own(column: &NumColumn<i64>)
    ensures { IsOwn (columns.I64 column.now) }
{
    column.values_are_counted();
    column.values().values_are_in_type();
}

fn unsigned_are_own(column: &NumColumn<u64>)
    ensures { IsOwn (columns.U64 column.now) }
{
    column.values_are_counted();
    column.values().values_are_in_type();
}

fn times_are_own(column: &NumColumn<DateTime>)
    ensures { IsOwn (columns.DateTime column.now) }
{
    column.values_are_counted();
    column.values().values_are_in_type();
}

fn addresses_are_own(column: &IpColumn)
    ensures { IsOwn (columns.IpAddr column.now) }
{
    column.values_are_counted();
    // That the greatest address has 128 bits is known of its bits, and so of each address.
    let _greatest = column.max_value().to_bits();
}

fn bytes_are_own(column: &BytesColumn)
    ensures { IsOwn (columns.Bytes column.now) }
{
    column.ords().values_are_counted();
}

fn texts_are_own(column: &StrColumn)
    ensures { IsOwn (columns.Str column.now) }
{
    column.bytes_column().ords().values_are_counted();
}
