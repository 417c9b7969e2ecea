//! What columns answer of their documents.

use col_column::{Column, IpColumn, IpValues, count_doc_values, lookups_are_those_of_cells};
use col_common::{ColumnarError, DocId, Ipv6Addr};
use col_index::{ColumnIndex, MultiValueIndex};
use col_tests_values::counting::Counting;
use col_values::{ColumnValues, VecColumn};
use std::alloc::Global;
use std::cell::Cell;
use std::process::Abort;
use std::test::Fail;

// Three documents with the values 1 and 2, none, and 7.
fn three_documents(alloc: Global) -> Result<Column<u64, VecColumn<u64>>, ColumnarError> {
    let index = MultiValueIndex::for_test(alloc, &[0, 2, 2, 3])?;
    let values = VecColumn::from_vec(vec![in alloc; 1, 2, 7]?);
    Ok(Column::new(ColumnIndex::Multivalued(index), values))
}

fn assert_values(
    rt: &impl Abort,
    alloc: Global,
    column: &Column<u64, VecColumn<u64>>,
) -> Result<(), ColumnarError> {
    assert_eq!(rt; column.num_docs(), 3);
    let mut first = [Some(9); 3];
    column.first_vals(&[0, 1, 2], &mut first);
    assert_eq!(rt; first, [Some(1), None, Some(7)]);
    assert_eq!(rt; column.first(0), Some(1));
    assert_eq!(rt; count_doc_values(column, 0), 2);
    let mut found = Vec::new(alloc);
    let mut rows = Vec::new(alloc);
    column.row_ids_for_docs(&[0, 2], &mut found, &mut rows)?;
    assert_eq!(rt; found.as_slice(), [0, 0, 2].as_slice());
    assert_eq!(rt; rows.as_slice(), [0, 1, 2].as_slice());
    Ok(())
}

#[test]
fn documents_have_their_values_and_positions(rt: HostRuntime) -> Result<(), Fail> {
    lookups_are_those_of_cells::<u64>();
    let column = three_documents(rt.alloc())?;
    assert_values(&rt, rt.alloc(), &column)?;
    Ok(())
}

fn assert_defaults<V: ColumnValues<u64>>(
    rt: &impl Abort,
    list: &V,
    default: u64,
    bounds: (u64, u64),
) {
    assert!(rt; list.num_vals() == 3, "default {default}");
    let mut values = [0; 3];
    list.get_range(0, &mut values);
    assert_eq!(rt; values, [1, default, 7]);
    assert_eq!(rt; (list.min_value(), list.max_value()), bounds);
}

#[test]
fn a_default_stands_where_a_document_has_no_value(rt: HostRuntime) -> Result<(), Fail> {
    for (default, bounds) in [(4, (1, 7)), (9, (1, 9))] {
        let list = three_documents(rt.alloc())?.first_or_default_col(default);
        assert_defaults(&rt, &list, default, bounds);
    }
    Ok(())
}

// The documents whose value is at least 2.
fn later_documents(
    alloc: Global,
    column: &Column<u64, Counting<'_>>,
) -> Result<Vec<DocId>, ColumnarError> {
    let mut docs = Vec::new(alloc);
    column.get_docids_for_value_range(2..=9, 0..3, &mut docs)?;
    Ok(docs)
}

#[test]
fn a_lookup_asks_the_list_once(rt: HostRuntime) -> Result<(), Fail> {
    let (reads, lookups) = (Cell::new(0), Cell::new(0));
    let values = Counting {
        values: VecColumn::from_vec(vec![in rt.alloc(); 1, 2, 3]?),
        reads: &reads,
        lookups: &lookups,
    };
    let docs = later_documents(rt.alloc(), &Column::new(ColumnIndex::Full, values))?;
    assert_eq!(rt; docs.as_slice(), [1, 2].as_slice());
    assert_eq!(rt; (lookups.get(), reads.get()), (1, 0));
    Ok(())
}

// The documents of any address.
fn documents_with_addresses(alloc: Global, column: &IpColumn) -> Result<Vec<DocId>, ColumnarError> {
    let mut docs = Vec::new(alloc);
    let all = Ipv6Addr::from_bits(0)..=Ipv6Addr::from_bits(u128::MAX);
    column.get_docids_for_value_range(all, 0..4, &mut docs)?;
    Ok(docs)
}

fn assert_no_addresses(
    rt: &impl Abort,
    alloc: Global,
    column: &IpColumn,
) -> Result<(), ColumnarError> {
    assert_eq!(rt; (column.num_docs(), column.min_value().to_bits()), (4, 0));
    let docs = documents_with_addresses(alloc, column)?;
    assert_eq!(rt; docs.as_slice(), [].as_slice());
    Ok(())
}

#[test]
fn a_column_without_addresses_has_its_documents(rt: HostRuntime) -> Result<(), Fail> {
    let column: IpColumn = Column::<Ipv6Addr, IpValues>::build_empty_column(4);
    assert_no_addresses(&rt, rt.alloc(), &column)?;
    Ok(())
}
