//! Which segments keep a column: those of which a picked row has a value.
ghost use Rattle.std.specs.Prelude.{◌≡◌, ◌<◌, ◌≤◌, ◌||◌, map, length, replicate, slice_set, slice_index_or, false, None, IfOk};
ghost use Rattle.col_order.specs.Orders.{counts_of, picks_of};
ghost use Rattle.col_order.specs.RowOrders.{order_of};
ghost use Rattle.col_merge_slot.specs.Kept.{has_value, has_values, kept_flags, AreSet};
ghost use Rattle.col_merge_slot.specs.Segments.{HaveRows};

use crate::told::columns_are_counted;
use col_common::RowAddr;
use col_dynamic::DynamicColumn;
use col_order::{MergeRowOrder, ShuffleMergeOrder};
use std::alloc::{AllocError, Global};

/// For each segment whether a row of it that the order picks has a value in its column.
pub(crate) fn kept_segments(
    alloc: Global,
    columns: &[Option<DynamicColumn>],
    merge_row_order: &MergeRowOrder,
) -> Result<Vec<bool>, AllocError>
    requires { HaveRows (counts_of (order_of merge_row_order.now)) columns.now }
    ensures { IfOk result (λ kept. kept.items
        ≡ kept_flags columns.now (picks_of (order_of merge_row_order.now))) }
{
    columns_are_counted(columns);
    match merge_row_order {
        MergeRowOrder::Stack(_) => kept_stacked(alloc, columns),
        MergeRowOrder::Shuffled(order) => kept_shuffled(alloc, columns, order),
    }
}

// For each segment whether its column has a value.
fn kept_stacked(alloc: Global, columns: &[Option<DynamicColumn>]) -> Result<Vec<bool>, AllocError>
    ensures { IfOk result (λ kept. kept.items ≡ map has_values columns.now) }
{
    let mut kept = Vec::with_capacity(alloc, columns.len())?;
    for column in columns {
        kept.push(has_values(column))?;
    }
    Ok(kept)
}

// Whether there is a column with a value.
fn has_values(column: &Option<DynamicColumn>) -> bool
    ensures { result ≡ has_values column.now }
{
    match column {
        Some(column) => column.num_values() != 0,
        None => false,
    }
}

// For each segment whether a row of it that is named has a value.
fn kept_shuffled(
    alloc: Global,
    columns: &[Option<DynamicColumn>],
    order: &ShuffleMergeOrder,
) -> Result<Vec<bool>, AllocError>
    requires { length columns.now ≡ length order.now.counts }
    ensures { IfOk result (λ kept. kept.items ≡ kept_flags columns.now order.now.addresses) }
{
    let mut kept = vec![in alloc; false; columns.len()]?;
    note_named(&mut kept, columns, order);
    Ok(kept)
}

// Sets the flag of each segment of which a row that is named has a value. No more rows are looked
// at than set all flags.
fn note_named(kept: &mut [bool], columns: &[Option<DynamicColumn>], order: &ShuffleMergeOrder)
    requires segments { length columns.now ≡ length order.now.counts }
    requires flags { kept.old ≡ replicate (length columns.now) false }
    ensures { kept.new ≡ kept_flags columns.now order.now.addresses }
{
    order.rows_are_there();
    let mut unset = 0;
    for addr in order.iter_new_to_old_row_addrs() {
        unset = first_unset(kept, unset);
        if unset == kept.len() {
            return;
        }
        note(kept, columns, *addr);
    }
}

// The first flag from a place on that isn't set, where all before that place are; else how many
// flags there are.
#[inline(always)]
fn first_unset(kept: &[bool], from: usize) -> usize
    requires within { from ≤ length kept.now }
    requires set { AreSet kept.now from }
    ensures within { result ≤ length kept.now }
    ensures set { AreSet kept.now result }
    ensures unset { slice_index_or kept.now result false ≡ false }
{
    let mut at = from;
    while at < kept.len() && kept[at] {
        at += 1;
    }
    at
}

// Whether the row that an address names has a value.
fn has_value_at(columns: &[Option<DynamicColumn>], addr: RowAddr) -> bool
    requires { addr.segment_ord < length columns.now }
    ensures { result ≡ has_value (slice_index_or columns.now addr.segment_ord None) addr.row_id }
{
    match &columns[addr.segment_ord as usize] {
        Some(column) => column.column_index().has_value(addr.row_id),
        None => false,
    }
}

// Sets the flag of the segment of a row that has a value. Where it is set, the row isn't looked at.
fn note(kept: &mut [bool], columns: &[Option<DynamicColumn>], addr: RowAddr)
    requires columns { addr.segment_ord < length columns.now }
    requires flags { addr.segment_ord < length kept.old }
    ensures { let found = has_value (slice_index_or columns.now addr.segment_ord None)
        addr.row_id in
        kept.new ≡ slice_set kept.old addr.segment_ord
        (slice_index_or kept.old addr.segment_ord false || found) }
{
    let segment = addr.segment_ord as usize;
    let found = kept[segment] || has_value_at(columns, addr);
    kept[segment] = found;
}
