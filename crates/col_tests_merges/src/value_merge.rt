//! Merged values of lists that count how often they are asked.
ghost use Rattle.std.specs.Prelude.{◌≡◌, [], ◌∷◌, map, IfOk};
ghost use Rattle.col_order.specs.Orders.{address_of, counts_of};
ghost use Rattle.col_order.specs.RowOrders.{order_of};

use col_common::{ColumnarError, Iterable, RowAddr, RowId};
use col_index::ColumnIndex;
use col_merge_values::MergedColumnValues;
use col_order::{MergeRowOrder, ShuffleMergeOrder, StackMergeOrder};
use col_values::{ColumnValues, VecColumn};
use std::alloc::Global;
use std::cell::Cell;
use std::process::Abort;
use std::test::Fail;

// A list that counts its calls, and those of its values.
#[derive(Drop)]
struct Counting<'a> {
    values: VecColumn<i64>,
    calls: &'a Cell<u32>,
    reads: &'a Cell<u32>,
}

fn count(calls: &Cell<u32>) {
    calls.set(calls.get().saturating_add(1));
}

impl<'a> ColumnValues<i64> for Counting<'a> {
    ghost values = { λ c. c.values.values };

    ghost IsLeast = { λ c v. v ≡ c.values.low };

    ghost IsGreatest = { λ c v. v ≡ c.values.high };

    fn num_vals(&self) -> u32 {
        count(self.calls);
        self.values.num_vals()
    }

    fn get_val(&self, idx: u32) -> i64 {
        count(self.calls);
        count(self.reads);
        self.values.get_val(idx)
    }

    fn min_value(&self) -> i64 {
        count(self.calls);
        self.values.min_value()
    }

    fn max_value(&self) -> i64 {
        count(self.calls);
        self.values.max_value()
    }
}

fn addresses(alloc: Global, rows: &[(u32, RowId)]) -> Result<Vec<RowAddr>, ColumnarError>
    ensures { IfOk result (λ addresses. map address_of addresses.items ≡ rows.now) }
{
    let mut addresses = Vec::with_capacity(alloc, rows.len())?;
    for row in rows {
        addresses.push(RowAddr {
            segment_ord: row.0,
            row_id: row.1,
        })?;
    }
    Ok(addresses)
}

// Each item is read by one call, and the end by none.
fn assert_reads(
    rt: &impl Abort,
    merged: &MergedColumnValues<i64, Counting>,
    reads: &Cell<u32>,
    items: &[i64],
) {
    let mut at = merged.walk();
    let mut count = reads.get();
    for item in items {
        assert_eq!(rt; merged.next(&mut at), Some(*item));
        count = count.saturating_add(1);
        assert_eq!(rt; reads.get(), count);
    }
    assert_eq!(rt; merged.next(&mut at), None);
    assert_eq!(rt; reads.get(), count);
}

// Nothing is asked of a list of three values when the view is made.
fn assert_asked(
    rt: &impl Abort,
    alloc: Global,
    order: &MergeRowOrder,
    picked: &[i64],
) -> Result<(), Fail>
    requires { counts_of (order_of order.now) ≡ 3 ∷ [] }
{
    let calls = Cell::new(0);
    let reads = Cell::new(0);
    let lists = [Counting {
        values: VecColumn::from_vec(vec![in alloc; 7, 9, 8]?),
        calls: &calls,
        reads: &reads,
    }];
    let merged = MergedColumnValues::new(&[ColumnIndex::Full], &lists, order);
    assert_eq!(rt; calls.get(), 0);
    assert_reads(rt, &merged, &reads, picked);
    Ok(())
}

#[test]
fn a_stack_asks_a_list_for_each_item_once(rt: HostRuntime) -> Result<(), Fail> {
    let alloc = rt.alloc();
    let order = MergeRowOrder::from(StackMergeOrder::stack_for_test(alloc, &[3])?);
    assert_asked(&rt, alloc, &order, &[7, 9, 8])
}

#[test]
fn a_shuffle_asks_a_list_for_each_item_once(rt: HostRuntime) -> Result<(), Fail> {
    let alloc = rt.alloc();
    let rows = addresses(alloc, &[(0, 2), (0, 1), (0, 2)])?;
    let order = MergeRowOrder::from(ShuffleMergeOrder::for_test(alloc, &[3], rows)?);
    assert_asked(&rt, alloc, &order, &[8, 9, 8])
}
