//! The ordinals of terms of columns, in a merged order, as ordinals of merged terms.
ghost use Rattle.std.specs.Prelude.{◌≡◌, ◌<◌, ◌≤◌, ◌++◌, map, drop, take, length, slice_get, slice_index, Some, OnOk};
ghost use Rattle.col_numbers.specs.NumValues.{num_values_of};
ghost use Rattle.col_order.specs.RowOrders.{order_of};
ghost use Rattle.col_merge_values.specs.TermColumns.{ords_of, remapped};

use crate::in_memory::InMemory;
use crate::lists::append_list;
use crate::runs::{next_value, picked_values};
use crate::segments::Segments;
use col_common::{Iterable, RowId, Walk};
use col_numbers::NumValues;
use col_order::MergeRowOrder;
use col_text::BytesColumn;
use col_values::ColumnValues;
use std::alloc::{AllocError, Global};
use std::marker::Model;
use std::ops::Range;

// Columns of terms, and for each what its ordinals are turned into.
#[derive(Drop)]
struct RemappedColumns<'a> {
    bytes_columns: &'a [BytesColumn],
    term_ord_mapping: &'a [Vec<u64>],
}

/// The ordinals of the terms of the rows that an order picks from columns, one row behind another,
/// each as its segment's mapping has it. Contracts see columns of turned ordinals, and the order.
#[derive(Drop)]
pub struct RemappedTermOrdinalsValues<'a> {
    columns: RemappedColumns<'a>,
    order: &'a MergeRowOrder,
}

impl<'a> Model for RemappedTermOrdinalsValues<'a> {
    ghost use Rattle.std.specs.Prelude.{ℕ, map};
    ghost use Rattle.col_order.specs.RowOrders.{order_of};
    ghost use Rattle.col_merge_values.specs.Merges.{Merge, IsMerge, merge_of};
    ghost use Rattle.col_merge_values.specs.TermColumns.{remapped_columns};

    ghost Value = { Merge ℕ };

    ghost view = { λ s. merge_of
        (remapped_columns s.columns.bytes_columns.now
        (map (λ m. m.items) s.columns.term_ord_mapping.now)) (order_of s.order.now) };

    ghost invariant = { λ s. IsMerge (merge_of
        (remapped_columns s.columns.bytes_columns.now
        (map (λ m. m.items) s.columns.term_ord_mapping.now)) (order_of s.order.now)) };
}

impl<'a> RemappedTermOrdinalsValues<'a> {
    ghost use Rattle.col_merge_values.specs.Merges.{IsMerge, merge_of};
    ghost use Rattle.col_merge_values.specs.TermColumns.{remapped_columns};

    /// The ordinals of a column and a mapping for each segment of an order. A mapping has an item
    /// for each of its column's terms; an ordinal without one is turned into 0.
    pub fn new(
        bytes_columns: &'a [BytesColumn],
        term_ord_mapping: &'a [Vec<u64>],
        merge_row_order: &'a MergeRowOrder,
    ) -> RemappedTermOrdinalsValues<'a>
        requires { IsMerge (merge_of
            (remapped_columns bytes_columns.now (map (λ m. m.items) term_ord_mapping.now))
            (order_of merge_row_order.now)) }
        ensures { result ≡ merge_of
            (remapped_columns bytes_columns.now (map (λ m. m.items) term_ord_mapping.now))
            (order_of merge_row_order.now) }
    {
        RemappedTermOrdinalsValues {
            columns: RemappedColumns {
                bytes_columns,
                term_ord_mapping,
            },
            order: merge_row_order,
        }
    }
}

impl<'a> Segments<u64> for RemappedColumns<'a> {
    ghost use Rattle.col_merge_values.specs.TermColumns.{remapped_columns};

    ghost columns = { λ s.
        remapped_columns s.bytes_columns.now (map (λ m. m.items) s.term_ord_mapping.now) };

    fn value_row_ids(&self, segment: usize, row_id: RowId) -> Range<RowId> {
        self.bytes_columns[segment]
            .ords()
            .index()
            .value_row_ids_if_any(row_id)
    }

    #[inline(always)]
    fn num_vals(&self, segment: usize) -> u32 {
        ords_of(self.bytes_columns, segment).num_vals()
    }

    #[inline(always)]
    fn get_val(&self, segment: usize, idx: u32) -> u64 {
        let ord = ords_of(self.bytes_columns, segment).get_val(idx);
        item_at(mapping_of(self.term_ord_mapping, segment), ord)
    }

    fn append_segment(&self, segment: usize, values: &mut Vec<u64>) -> Result<(), AllocError> {
        append_mapped(
            ords_of(self.bytes_columns, segment),
            mapping_of(self.term_ord_mapping, segment),
            values,
        )
    }
}

// Appends the ordinals of a list, each as a mapping has it.
fn append_mapped(
    ords: &NumValues<u64>,
    mapping: &[u64],
    values: &mut Vec<u64>,
) -> Result<(), AllocError>
    ensures { OnOk result (values.new.items
        ≡ values.old.items ++ remapped mapping.now (num_values_of ords.now)) }
{
    let start = values.len();
    append_list(ords, values)?;
    map_from(values.as_mut_slice(), start, mapping);
    Ok(())
}

// Turns ordinals from a place on into the items of a mapping.
fn map_from(ords: &mut [u64], start: usize, mapping: &[u64])
    requires { start ≤ length ords.old }
    ensures { ords.new ≡ take start ords.old ++ remapped mapping.now (drop start ords.old) }
{
    map_all(&mut ords[start..], mapping);
}

// Turns ordinals into the items of a mapping.
fn map_all(ords: &mut [u64], mapping: &[u64])
    ensures { ords.new ≡ remapped mapping.now ords.old }
{
    for at in 0..ords.len() {
        ords[at] = item_at(mapping, ords[at]);
    }
}

// The ordinals of a segment's column.
#[inline(always)]
fn ords_of(bytes_columns: &[BytesColumn], segment: usize) -> &NumValues<u64>
    requires { segment < length bytes_columns.now }
    ensures { slice_get (map ords_of bytes_columns.now) segment ≡ Some (num_values_of result.now) }
{
    bytes_columns[segment].ords().values()
}

// A segment's mapping.
#[inline(always)]
fn mapping_of(term_ord_mapping: &[Vec<u64>], segment: usize) -> &[u64]
    requires { segment < length term_ord_mapping.now }
    ensures { slice_get (map (λ m. m.items) term_ord_mapping.now) segment ≡ Some result.now }
{
    &term_ord_mapping[segment]
}

// The item of a mapping; 0 where there is none.
#[inline(always)]
fn item_at(mapping: &[u64], ord: u64) -> u64
    ensures { result ≡ slice_index mapping.now ord }
{
    match mapping.get(ord as usize) {
        Some(item) => *item,
        None => 0,
    }
}

impl Iterable<u64> for RemappedTermOrdinalsValues<'_> {
    ghost use Rattle.col_merge_values.specs.Merges.{values_of, StandsInRun, values_to_give};

    ghost items = { λ m. values_of m };

    ghost stands = { λ m w. StandsInRun m.columns w };

    ghost left = { λ m w. values_to_give m w };

    fn walk(&self) -> Walk {
        // That each index counts its list is known of the merge once a field is read.
        let _ = &self.order;
        Walk::default()
    }

    #[inline(always)]
    fn next(&self, at: &mut Walk) -> Option<u64> {
        next_value(&self.columns, self.order, at)
    }
}

impl InMemory<u64> for RemappedTermOrdinalsValues<'_> {
    fn in_memory(&self, alloc: Global) -> Result<Vec<u64>, AllocError> {
        picked_values(alloc, &self.columns, self.order)
    }
}
