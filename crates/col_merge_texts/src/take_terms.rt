//! Notes the terms that a merged column has.
ghost use Rattle.std.specs.Prelude.{◌≡◌, ◌<◌, [], ◌+◌, length, take, drop, slice_get, Some, IfOk, IfErr, OnOk};
ghost use Rattle.std.specs.List.{AllByRecursion};
ghost use Rattle.col_model.specs.Order.{stack, shuffle};
ghost use Rattle.col_order.specs.RowOrders.{order_of};
ghost use Rattle.col_merge_texts.specs.Merged.{FitTexts};
ghost use Rattle.col_merge_texts.specs.Taking.{AreTold, IsPlace, IsPicked, IsTaken, IsFrom, IsNowhere, AreNoted, IsTakeRefusal};
ghost use Rattle.col_merge_texts.specs.Ids.{AreIds, HasIds, places_of};

use crate::noted_terms::NotedTerms;
use col_common::{ColumnarError, RowId};
use col_order::{MergeRowOrder, ShuffleMergeOrder};
use col_text::BytesColumn;
use std::alloc::Global;

/// The terms of a stack's columns, or those that a shuffle's rows have, with the id of each value
/// of these rows.
pub(crate) fn take_terms(
    alloc: Global,
    bytes_columns: &[BytesColumn],
    merge_row_order: &MergeRowOrder,
    ids: &mut Vec<u32>,
) -> Result<NotedTerms, ColumnarError>
    requires fit { FitTexts (order_of merge_row_order.now) bytes_columns.now }
    requires told { AllByRecursion AreTold bytes_columns.now }
    requires none { ids.old.items ≡ [] }
    ensures ok { IfOk result (AreNoted bytes_columns.now
        (IsTaken bytes_columns.now (order_of merge_row_order.now)) IsNowhere) }
    ensures ids { IfOk result (λ noted.
        HasIds bytes_columns.now (order_of merge_row_order.now) noted ids.new.items) }
    ensures err { IfErr result (IsTakeRefusal bytes_columns.now (order_of merge_row_order.now)) }
{
    let mut noted = NotedTerms::new(alloc, bytes_columns)?;
    take_by_order(bytes_columns, merge_row_order, &mut noted, ids)?;
    Ok(noted)
}

// Notes the terms that an order takes.
fn take_by_order(
    bytes_columns: &[BytesColumn],
    merge_row_order: &MergeRowOrder,
    noted: &mut NotedTerms,
    ids: &mut Vec<u32>,
) -> Result<(), ColumnarError>
    requires fit { FitTexts (order_of merge_row_order.now) bytes_columns.now }
    requires noted { let taken = IsTaken bytes_columns.now (order_of merge_row_order.now) in
        AreNoted bytes_columns.now taken taken noted.old }
    requires none { ids.old.items ≡ [] }
    ensures ok { OnOk result (AreNoted bytes_columns.now
        (IsTaken bytes_columns.now (order_of merge_row_order.now)) IsNowhere noted.new) }
    ensures ids { OnOk result
        (HasIds bytes_columns.now (order_of merge_row_order.now) noted.new ids.new.items) }
    ensures err { IfErr result (IsTakeRefusal bytes_columns.now (order_of merge_row_order.now)) }
{
    match merge_row_order {
        MergeRowOrder::Stack(_) => take_all(bytes_columns, noted),
        MergeRowOrder::Shuffled(order) => take_picked(bytes_columns, order, noted, ids),
    }
}

// Notes the terms of all columns.
fn take_all(bytes_columns: &[BytesColumn], noted: &mut NotedTerms) -> Result<(), ColumnarError>
    requires { AreNoted bytes_columns.now (IsPlace bytes_columns.now) (IsFrom 0 0) noted.old }
    ensures ok { OnOk result
        (AreNoted bytes_columns.now (IsPlace bytes_columns.now) IsNowhere noted.new) }
    ensures err { IfErr result (IsTakeRefusal bytes_columns.now (stack [])) }
{
    for (segment, column) in bytes_columns.iter().enumerate() {
        take_column(bytes_columns, column, segment, noted)?;
    }
    Ok(())
}

// Notes the terms of a column.
fn take_column(
    bytes_columns: &[BytesColumn],
    column: &BytesColumn,
    segment: usize,
    noted: &mut NotedTerms,
) -> Result<(), ColumnarError>
    requires column { slice_get bytes_columns.now segment ≡ Some column.now }
    requires noted { AreNoted bytes_columns.now (IsPlace bytes_columns.now) (IsFrom segment 0)
        noted.old }
    ensures ok { OnOk result (AreNoted bytes_columns.now (IsPlace bytes_columns.now)
        (IsFrom (segment + 1) 0) noted.new) }
    ensures err { IfErr result (IsTakeRefusal bytes_columns.now (stack [])) }
{
    for ord in 0..column.num_terms() as u64 {
        noted.note(column, segment, ord)?;
    }
    Ok(())
}

// Notes the terms that picked rows have, and their ids.
fn take_picked(
    bytes_columns: &[BytesColumn],
    order: &ShuffleMergeOrder,
    noted: &mut NotedTerms,
    ids: &mut Vec<u32>,
) -> Result<(), ColumnarError>
    requires fit { FitTexts (shuffle order.now.counts order.now.addresses) bytes_columns.now }
    requires noted { AreNoted bytes_columns.now
        (IsPicked bytes_columns.now order.now.addresses)
        (IsPicked bytes_columns.now order.now.addresses) noted.old }
    requires none { ids.old.items ≡ [] }
    ensures ok { OnOk result (AreNoted bytes_columns.now
        (IsPicked bytes_columns.now order.now.addresses) IsNowhere noted.new) }
    ensures ids { OnOk result (AreIds noted.new.ids
        (places_of bytes_columns.now order.now.addresses) ids.new.items) }
    ensures err { IfErr result
        (IsTakeRefusal bytes_columns.now (shuffle order.now.counts order.now.addresses)) }
{
    for row in 0..order.num_rows() {
        take_row(bytes_columns, order, row, noted, ids)?;
    }
    Ok(())
}

// Notes the terms that a picked row has, and their ids.
fn take_row(
    bytes_columns: &[BytesColumn],
    order: &ShuffleMergeOrder,
    row: RowId,
    noted: &mut NotedTerms,
    ids: &mut Vec<u32>,
) -> Result<(), ColumnarError>
    requires row { row < length order.now.addresses }
    requires fit { FitTexts (shuffle order.now.counts order.now.addresses) bytes_columns.now }
    requires noted { AreNoted bytes_columns.now
        (IsPicked bytes_columns.now order.now.addresses)
        (IsPicked bytes_columns.now (drop row order.now.addresses)) noted.old }
    requires ids { AreIds noted.old.ids
        (places_of bytes_columns.now (take row order.now.addresses)) ids.old.items }
    ensures ok { OnOk result (AreNoted bytes_columns.now
        (IsPicked bytes_columns.now order.now.addresses)
        (IsPicked bytes_columns.now (drop (row + 1) order.now.addresses)) noted.new) }
    ensures ids { OnOk result (AreIds noted.new.ids
        (places_of bytes_columns.now (take (row + 1) order.now.addresses)) ids.new.items) }
    ensures err { IfErr result
        (IsTakeRefusal bytes_columns.now (shuffle order.now.counts order.now.addresses)) }
{
    order.rows_are_there();
    let row_addr = order.row_addr(row);
    let segment = row_addr.segment_ord as usize;
    let column = &bytes_columns[segment];
    let mut ords = column.term_ords(row_addr.row_id);
    while let Some(ord) = ords.next() {
        ids.push(noted.note(column, segment, ord)?)?;
    }
    Ok(())
}
