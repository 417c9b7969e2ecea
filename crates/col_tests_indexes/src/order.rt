//! Row orders by examples.

use col_common::{ColumnarError, RowAddr, RowId};
use col_order::{MergeRowOrder, ShuffleMergeOrder, StackMergeOrder, orders_are_picks};
use std::alloc::Global;
use std::test::Fail;

// The row counts of two segments, and four of their five rows.
const COUNTS: [RowId; 2] = [2, 3];

const ROWS: [(u32, RowId); 4] = [(1, 0), (1, 1), (1, 2), (0, 0)];

fn addresses(alloc: Global, rows: &[(u32, RowId)]) -> Result<Vec<RowAddr>, ColumnarError> {
    let mut addresses = Vec::with_capacity(alloc, rows.len())?;
    for row in rows {
        let (segment_ord, row_id) = *row;
        addresses.push(RowAddr {
            segment_ord,
            row_id,
        })?;
    }
    Ok(addresses)
}

#[test]
fn a_stack_has_segment_after_segment(rt: HostRuntime) -> Result<(), Fail> {
    let order = StackMergeOrder::stack_for_test(rt.alloc(), &[3, 0, 2])?;
    assert_eq!(rt; (order.offset(2), order.offset(3)), (3, 5));
    assert_eq!(rt;
        (order.columnar_range(1), order.columnar_range(2)),
        (3..3, 3..5)
    );
    orders_are_picks(&MergeRowOrder::from(order));
    Ok(())
}

#[test]
fn a_shuffle_has_the_rows_that_it_names(rt: HostRuntime) -> Result<(), Fail> {
    let order = ShuffleMergeOrder::for_test(rt.alloc(), &COUNTS, addresses(rt.alloc(), &ROWS)?)?;
    order.rows_are_there();
    assert_eq!(rt; order.num_rows(), 4);
    assert_eq!(rt; order.num_segments(), 2);
    let last = order.row_addr(3);
    assert_eq!(rt; (last.segment_ord, last.row_id), (0, 0));
    Ok(())
}

#[test]
fn rows_that_a_shuffle_names_are_alive(rt: HostRuntime) -> Result<(), Fail> {
    let order = ShuffleMergeOrder::for_test(rt.alloc(), &COUNTS, addresses(rt.alloc(), &ROWS)?)?;
    let alive = order.alive(rt.alloc(), 0)?;
    assert_eq!(rt; alive.len(), 1);
    Ok(())
}
