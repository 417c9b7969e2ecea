//! Either order.
ghost use Rattle.std.specs.Prelude.{◌≡◌, ◌<◌, length, slice_index, Some};
ghost use Rattle.col_model.specs.Order.{picks, stack, shuffle};
ghost use Rattle.col_order.specs.Orders.{counts_of, picks_of};
ghost use Rattle.col_order.specs.RowOrders.{order_of};

use crate::{ShuffleMergeOrder, StackMergeOrder};
use col_common::RowId;

/// Which rows a merge takes, in which order.
#[derive(Drop)]
pub enum MergeRowOrder {
    /// All rows, segment after segment.
    Stack(StackMergeOrder),
    /// Those that are named.
    Shuffled(ShuffleMergeOrder),
}

impl MergeRowOrder {
    /// How many rows are picked.
    pub fn num_rows(&self) -> RowId
        ensures { result ≡ length (picks_of (order_of self.now)) }
    {
        match self {
            MergeRowOrder::Stack(order) => order.num_rows(),
            MergeRowOrder::Shuffled(order) => order.num_rows(),
        }
    }

    /// How many segments there are.
    pub fn num_segments(&self) -> usize
        ensures { result ≡ length (counts_of (order_of self.now)) }
    {
        match self {
            MergeRowOrder::Stack(order) => order.num_segments(),
            MergeRowOrder::Shuffled(order) => order.num_segments(),
        }
    }

    /// How many rows a segment has.
    pub fn segment_num_rows(&self, segment: usize) -> RowId
        requires { segment < length (counts_of (order_of self.now)) }
        ensures { result ≡ slice_index (counts_of (order_of self.now)) segment }
    {
        match self {
            MergeRowOrder::Stack(order) => order.segment_num_rows(segment),
            MergeRowOrder::Shuffled(order) => order.segment_num_rows(segment),
        }
    }
}

impl From<StackMergeOrder> for MergeRowOrder {
    fn from(order: StackMergeOrder) -> MergeRowOrder
        ensures { order_of result ≡ stack order }
    {
        MergeRowOrder::Stack(order)
    }
}

impl From<ShuffleMergeOrder> for MergeRowOrder {
    fn from(order: ShuffleMergeOrder) -> MergeRowOrder
        ensures { order_of result ≡ shuffle order.counts order.addresses }
    {
        MergeRowOrder::Shuffled(order)
    }
}

/// An order picks its rows of segments with its row counts.
pub fn orders_are_picks(order: &MergeRowOrder)
    ensures { picks (order_of order.now) (counts_of (order_of order.now))
        ≡ Some (picks_of (order_of order.now)) }
{
    match order {
        MergeRowOrder::Stack(_) => {}
        MergeRowOrder::Shuffled(order) => order.rows_are_there(),
    }
}
