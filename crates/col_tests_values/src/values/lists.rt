//! Lists of values, by examples.

use crate::counting::Counting;
use crate::values::doubling::Doubling;
use col_common::Iterable;
use col_values::{ColumnValues, EmptyColumnValues, VecColumn, count_items, monotonic_map_column};
use std::cell::Cell;
use std::test::Fail;

#[test]
fn a_mapped_list_is_read_and_found_by_its_images(rt: HostRuntime) -> Result<(), Fail> {
    let alloc = rt.alloc();
    let doubled = monotonic_map_column(VecColumn::from_vec(vec![in alloc; 1, 2, 3]?), Doubling);
    let mut read = [0; 3];
    doubled.get_mapped_range(0, &mut read);
    assert_eq!(rt; read, [2, 4, 6]);
    assert_eq!(rt; count_items(&doubled), 3);
    let mut at = doubled.walk();
    assert_eq!(rt; doubled.next(&mut at), Some(2));
    let mut hits = vec![in alloc; 7]?;
    doubled.get_row_ids_for_value_range(3..=5, 0..3, &mut hits)?;
    assert_eq!(rt; hits.as_slice(), [1].as_slice());
    doubled.get_row_ids_for_value_range(3..=3, 0..3, &mut hits)?;
    assert_eq!(rt; hits.len(), 0);
    Ok(())
}

#[test]
fn a_lookup_through_a_map_asks_the_list_once_and_reads_no_value(
    rt: HostRuntime,
) -> Result<(), Fail> {
    let reads = Cell::new(0);
    let lookups = Cell::new(0);
    let doubled = monotonic_map_column(
        Counting {
            values: VecColumn::from_vec(vec![in rt.alloc(); 1, 2, 3]?),
            reads: &reads,
            lookups: &lookups,
        },
        Doubling,
    );
    let mut hits = Vec::new(rt.alloc());
    doubled.get_row_ids_for_value_range(3..=5, 0..3, &mut hits)?;
    assert_eq!(rt; hits.as_slice(), [1].as_slice());
    assert_eq!(rt; (lookups.get(), reads.get()), (1, 0));
    Ok(())
}

#[test]
fn lists_are_read_at_positions_and_taken_back(rt: HostRuntime) -> Result<(), Fail> {
    let column = VecColumn::from_vec(vec![in rt.alloc(); 5, 1, 9]?);
    let mut found = [None, None];
    column.get_vals_opt(&[2, 1], &mut found);
    assert_eq!(rt; found, [Some(9), Some(1)]);
    assert_eq!(rt; column.into_vec().as_slice(), [5, 1, 9].as_slice());
    let none = EmptyColumnValues;
    let values: [i64; 3] = [none.min_value(), none.max_value(), none.get_val(0)];
    assert_eq!(rt; values, [0, 0, 0]);
    Ok(())
}
