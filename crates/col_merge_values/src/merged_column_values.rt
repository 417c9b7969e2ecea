//! The values of columns, in a merged order.
ghost use Rattle.std.specs.Prelude.{◌≡◌, map};
ghost use Rattle.col_index.specs.Indexes.{shape_of};
ghost use Rattle.col_order.specs.RowOrders.{order_of};

use crate::in_memory::InMemory;
use crate::lists::append_list;
use crate::picked::{PickedColumn, is_full, picked_column};
use crate::room::room_for_values;
use crate::runs::{next_value, picked_values};
use crate::segments::Segments;
use col_common::{Iterable, RowId, Walk};
use col_index::ColumnIndex;
use col_indexer::SerializableColumnIndex;
use col_order::{MergeRowOrder, orders_are_picks};
use col_values::ColumnValues;
use std::alloc::{AllocError, Global};
use std::marker::{Model, PhantomData};
use std::ops::Range;

// Indexes, and the lists of values that they count.
#[derive(Drop)]
struct IndexedLists<'a, T, V>
where
    T: PartialOrd + Copy,
    V: ColumnValues<T>,
{
    column_indexes: &'a [ColumnIndex],
    column_values: &'a [V],
    types: PhantomData<T>,
}

/// The values of the rows that an order picks from columns, one row behind another. Contracts see
/// the columns and the order.
#[derive(Drop)]
pub struct MergedColumnValues<'a, T, V>
where
    T: PartialOrd + Copy,
    V: ColumnValues<T>,
{
    columns: IndexedLists<'a, T, V>,
    order: &'a MergeRowOrder,
}

impl<'a, T, V> Model for MergedColumnValues<'a, T, V>
where
    T: PartialOrd + Copy,
    V: ColumnValues<T>,
{
    ghost use Rattle.std.specs.Prelude.{map};
    ghost use Rattle.col_index.specs.Indexes.{shape_of};
    ghost use Rattle.col_order.specs.RowOrders.{order_of};
    ghost use Rattle.col_merge_values.specs.Merges.{Merge, IsMerge, columns_by, merge_of};

    ghost Value = { Merge T };

    ghost view = { λ s. merge_of
        (columns_by (map shape_of s.columns.column_indexes.now)
        (map V.values s.columns.column_values.now)) (order_of s.order.now) };

    ghost invariant = { λ s. IsMerge (merge_of
        (columns_by (map shape_of s.columns.column_indexes.now)
        (map V.values s.columns.column_values.now)) (order_of s.order.now)) };
}

impl<'a, T, V> MergedColumnValues<'a, T, V>
where
    T: PartialOrd + Copy,
    V: ColumnValues<T>,
{
    ghost use Rattle.std.specs.Prelude.{◌<◌, ◌^◌, length, IfOk, IfSome};
    ghost use Rattle.col_order.specs.Orders.{picks_of};
    ghost use Rattle.col_merge_values.specs.Merges.{IsMerge, columns_by, merge_of, values_of};
    ghost use Rattle.col_merge_values.specs.Picked.{ArePicked};

    /// The values of an index and a list for each segment of an order, which the index counts. It
    /// asks nothing of the lists.
    pub fn new(
        column_indexes: &'a [ColumnIndex],
        column_values: &'a [V],
        merge_row_order: &'a MergeRowOrder,
    ) -> MergedColumnValues<'a, T, V>
        requires { IsMerge (merge_of
            (columns_by (map shape_of column_indexes.now) (map V.values column_values.now))
            (order_of merge_row_order.now)) }
        ensures { result ≡ merge_of
            (columns_by (map shape_of column_indexes.now) (map V.values column_values.now))
            (order_of merge_row_order.now) }
    {
        MergedColumnValues {
            columns: IndexedLists {
                column_indexes,
                column_values,
                types: PhantomData,
            },
            order: merge_row_order,
        }
    }

    /// What a shuffle picks, in memory, where an index has lists of it; none of a stack, whose
    /// lists stand together.
    pub(crate) fn picked(
        &self,
        alloc: Global,
        column_index: &SerializableColumnIndex<'_>,
    ) -> Result<Option<PickedColumn<T>>, AllocError>
        requires { length (values_of self.now) < 2 ^ 32 }
        ensures { IfOk result (λ o. IfSome o (λ p. ArePicked self.now.columns
            (picks_of self.now.order) p.rows.items p.starts.items p.values.items)) }
    {
        orders_are_picks(self.order);
        if is_full(column_index) {
            return Ok(None);
        }
        match self.order {
            MergeRowOrder::Stack(_) => Ok(None),
            MergeRowOrder::Shuffled(order) => {
                let room = room_for_values(&self.columns, self.order);
                Ok(Some(picked_column(alloc, &self.columns, order, room)?))
            }
        }
    }
}

impl<'a, T, V> Segments<T> for IndexedLists<'a, T, V>
where
    T: PartialOrd + Copy,
    V: ColumnValues<T>,
{
    ghost use Rattle.col_merge_values.specs.Merges.{columns_by};

    ghost columns = { λ s.
        columns_by (map shape_of s.column_indexes.now) (map V.values s.column_values.now) };

    fn value_row_ids(&self, segment: usize, row_id: RowId) -> Range<RowId> {
        self.column_indexes[segment].value_row_ids_if_any(row_id)
    }

    #[inline(always)]
    fn num_vals(&self, segment: usize) -> u32 {
        self.column_values[segment].num_vals()
    }

    #[inline(always)]
    fn get_val(&self, segment: usize, idx: u32) -> T {
        self.column_values[segment].get_val(idx)
    }

    fn append_segment(&self, segment: usize, values: &mut Vec<T>) -> Result<(), AllocError> {
        append_list(&self.column_values[segment], values)
    }
}

impl<'a, T, V> Iterable<T> for MergedColumnValues<'a, T, V>
where
    T: PartialOrd + Copy,
    V: ColumnValues<T>,
{
    ghost use Rattle.col_merge_values.specs.Merges.{values_of, StandsInRun, values_to_give};

    ghost items = { λ m. values_of m };

    ghost stands = { λ m w. StandsInRun m.columns w };

    ghost left = { λ m w. values_to_give m w };

    fn walk(&self) -> Walk {
        // That each index counts its list is known of the merge once a field is read.
        let _ = &self.order;
        Walk::default()
    }

    #[inline(always)]
    fn next(&self, at: &mut Walk) -> Option<T> {
        next_value(&self.columns, self.order, at)
    }
}

impl<'a, T, V> InMemory<T> for MergedColumnValues<'a, T, V>
where
    T: PartialOrd + Copy,
    V: ColumnValues<T>,
{
    fn in_memory(&self, alloc: Global) -> Result<Vec<T>, AllocError> {
        picked_values(alloc, &self.columns, self.order)
    }
}
