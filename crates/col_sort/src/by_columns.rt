//! Rows by the first values of columns.
ghost use Rattle.std.specs.Prelude.{◌≡◌, ◌<◌, ◌^◌, length, map, IfOk, OnOk};
ghost use Rattle.std.specs.FinMap.{IsAntisymmetric};
ghost use Rattle.col_order.specs.Orders.{address_of};
ghost use Rattle.col_sort_rows.specs.Keys.{added, rows_from, rows_of_all, rows_by_keys};
ghost use Rattle.col_sort.specs.Columns.{segment_keys, all_keys};

use crate::column_key::ColumnKey;
use crate::key_bounds::{joined_bounds, rows_between};
use col_common::{RowAddr, RowId};
use col_dynamic::DynamicColumn;
use col_sort_rows::KeyedRows;
use std::alloc::{AllocError, Global};

/// All rows of segments by the keys of their columns, or by falling ones.
pub(crate) fn rows_by_columns<K: ColumnKey>(
    alloc: Global,
    columns: &[Option<DynamicColumn>],
    counts: &[RowId],
    reversed: bool,
) -> Result<Vec<RowAddr>, AllocError>
    requires exact { IsAntisymmetric K.cmp }
    requires long { length columns.now ≡ length counts.now }
    requires few { length counts.now < 2 ^ 32 }
    ensures { IfOk result (λ rows. map address_of rows.items
        ≡ rows_by_keys K.cmp reversed (all_keys K.keys columns.now counts.now)) }
{
    let mut rows = rows_between(alloc, bounds_of_all::<K>(columns), counts);
    push_columns(alloc, columns, counts, &mut rows)?;
    rows.into_rows(alloc, reversed)
}

// The least and the greatest key that columns state: a hint alone.
fn bounds_of_all<K: ColumnKey>(columns: &[Option<DynamicColumn>]) -> Option<(K, K)> {
    let mut bounds = None;
    for column in columns {
        if let Some(column) = column {
            bounds = joined_bounds(bounds, K::bounds(column));
        }
    }
    bounds
}

// Adds the rows of all segments.
fn push_columns<K: ColumnKey>(
    alloc: Global,
    columns: &[Option<DynamicColumn>],
    counts: &[RowId],
    rows: &mut KeyedRows<K>,
) -> Result<(), AllocError>
    requires long { length columns.now ≡ length counts.now }
    requires few { length counts.now < 2 ^ 32 }
    ensures { OnOk result (rows.new
        ≡ added rows.old (rows_of_all 0 (all_keys K.keys columns.now counts.now))) }
{
    for segment in 0..columns.len() {
        push_segment(
            alloc,
            &columns[segment],
            counts[segment],
            segment as u32,
            rows,
        )?;
    }
    Ok(())
}

// Adds the rows of a segment.
fn push_segment<K: ColumnKey>(
    alloc: Global,
    column: &Option<DynamicColumn>,
    num_rows: RowId,
    segment_ord: u32,
    rows: &mut KeyedRows<K>,
) -> Result<(), AllocError>
    ensures { OnOk result (rows.new ≡ added rows.old
        (rows_from segment_ord 0 (segment_keys K.keys column.now num_rows))) }
{
    match column {
        Some(column) => K::push_column(alloc, column, segment_ord, rows),
        None => rows.push_without(segment_ord, num_rows),
    }
}
