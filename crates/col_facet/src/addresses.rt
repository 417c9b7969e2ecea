//! Facets of addresses: of a list by its codes where they are few, else by how far they lie above
//! the least one where 64 bits tell it: such distances are sorted in a third of the time that
//! addresses take.
ghost use Rattle.std.specs.Prelude.{◌≡◌, ◌+◌, ℕ, true, map, ◌++◌, IfOk, IfSome};
ghost use Rattle.col_common.specs.Ascending.{AreBelow, is_rising};
ghost use Rattle.col_column.specs.Columns.{rows_of_values, num_docs_in};
ghost use Rattle.col_column.specs.IpValues.{ip_values_of};
ghost use Rattle.col_facet.specs.Facets.{facets_of};
ghost use Rattle.col_facet.specs.Values.{values_in_rows};
ghost use Rattle.col_facet.specs.declared.facet_cell.FacetCell.{FacetCell};
ghost use Rattle.col_facet.specs.declared.facet_cell.FacetCell.TheVariants as cells;

use crate::blocks::{read_docs_block, read_list_block};
use crate::codes::facets_of_codes;
use crate::facet_cell::{FacetCell, FacetCount};
use crate::place_cells::PlaceCells;
use crate::runs::{facets_of_list, facets_of_places, value_facets};
use crate::table::{counted_facets, counts_of_places, places_of};
use col_column::{Column, IpValues};
use col_common::{DocId, Ipv6Addr};
use col_values::ColumnValues;
use std::alloc::{AllocError, Global};
use std::marker::Model;

// The addresses from a least one on, as far as 64 bits count them.
#[derive(Drop)]
struct AddressesFrom {
    least: u128,
}

impl Model for AddressesFrom {
    ghost use Rattle.std.specs.Prelude.{ℕ, ◌+◌, ◌≤◌, ◌^◌};

    ghost Value = { ℕ };

    ghost view = { λ s. s.least };

    ghost invariant = { λ s. s.least + 2 ^ 64 ≤ 2 ^ 128 };
}

impl AddressesFrom {
    // Those from this one on, where each number of 64 bits stands for one.
    fn new(least: Ipv6Addr) -> Option<AddressesFrom>
        ensures { IfSome result (λ addresses. addresses ≡ least) }
    {
        let least = least.to_bits();
        if least > u128::MAX - u128::from(u64::MAX) {
            return None;
        }
        Some(AddressesFrom { least })
    }

    // How far an address lies above the least, where 64 bits tell it.
    fn distance(&self, address: Ipv6Addr) -> Option<u64>
        ensures { IfSome result (λ n. self.now + n ≡ address) }
    {
        let distance = address.to_bits().checked_sub(self.least)?;
        u64::try_from(distance).ok()
    }
}

impl PlaceCells<u64> for AddressesFrom {
    ghost cells = { λ least n. cells.Addr (least + n) };

    #[inline(always)]
    fn cell_at(&self, _alloc: Global, place: u64) -> Result<FacetCell, AllocError> {
        Ok(FacetCell::Addr(self.least + u128::from(place)))
    }
}

/// How often the cells of the addresses of a list stand there: by its codes where they are few.
pub(crate) fn facets_of_addresses(
    alloc: Global,
    list: &IpValues,
) -> Result<Vec<FacetCount>, AllocError>
    ensures { IfOk result (λ facets. facets.items
        ≡ facets_of (map (λ n. cells.Addr n) (ip_values_of list.now))) }
{
    if let IpValues::Read(view) = list {
        let (codes, _map) = view.parts();
        if let Some(facets) = facets_of_codes(alloc, codes)? {
            return Ok(facets);
        }
    }
    facets_by_value(alloc, list)
}

// The same by how far they lie above the least.
fn facets_by_value<V: ColumnValues<Ipv6Addr>>(
    alloc: Global,
    list: &V,
) -> Result<Vec<FacetCount>, AllocError>
    ensures { IfOk result (λ facets. facets.items
        ≡ facets_of (map (λ n. cells.Addr n) (V.values list.now))) }
{
    let least = list.min_value();
    if least == list.max_value() {
        return facets_of_list(alloc, list);
    }
    let Some(addresses) = AddressesFrom::new(least) else {
        return facets_of_list(alloc, list);
    };
    match distances_of_all(alloc, list, &addresses)? {
        Some(distances) => facets_of_distances(alloc, &addresses, distances),
        None => facets_of_list(alloc, list),
    }
}

/// How often the cells of addresses stand in the rows of documents.
pub(crate) fn address_facets<V: ColumnValues<Ipv6Addr>>(
    alloc: Global,
    column: &Column<Ipv6Addr, V>,
    docs: &[DocId],
) -> Result<Vec<FacetCount>, AllocError>
    requires rising { is_rising docs.now ≡ true }
    requires below { AreBelow (num_docs_in V.values column.now) docs.now }
    ensures { IfOk result (λ facets. facets.items ≡ facets_of (map (λ n. cells.Addr n)
        (values_in_rows (rows_of_values V.values column.now) docs.now))) }
{
    let Some(addresses) = AddressesFrom::new(column.min_value()) else {
        return value_facets(alloc, column, docs);
    };
    match distances_of_docs(alloc, column, docs, &addresses)? {
        Some(distances) => facets_of_distances(alloc, &addresses, distances),
        None => value_facets(alloc, column, docs),
    }
}

// How often the cells of addresses stand, which lie so far above the least: by a table where they
// are near, else in order.
fn facets_of_distances(
    alloc: Global,
    addresses: &AddressesFrom,
    distances: Vec<u64>,
) -> Result<Vec<FacetCount>, AllocError>
    ensures { IfOk result (λ facets. facets.items
        ≡ facets_of (map (λ n. cells.Addr n) (map (λ n. addresses.now + n) distances.items))) }
{
    match near_places(distances.as_slice()) {
        Some(len) => table_of_distances(alloc, addresses, distances.as_slice(), len),
        None => facets_of_places(alloc, addresses, distances),
    }
}

// How many places a table of these distances has, where so many are few.
fn near_places(distances: &[u64]) -> Option<usize>
    ensures { IfSome result (λ len. AreBelow len distances.now) }
{
    let limit = places_of(distances.len());
    let mut len = 1;
    for distance in distances {
        if *distance >= limit as u64 {
            return None;
        }
        len = len.max(*distance as usize + 1);
    }
    Some(len)
}

// The same by a table of so many places.
fn table_of_distances(
    alloc: Global,
    addresses: &AddressesFrom,
    distances: &[u64],
    len: usize,
) -> Result<Vec<FacetCount>, AllocError>
    requires { AreBelow len distances.now }
    ensures { IfOk result (λ facets. facets.items
        ≡ facets_of (map (λ n. cells.Addr (addresses.now + n)) distances.now)) }
{
    let counts = counts_of_places(alloc, distances, len)?;
    counted_facets(alloc, addresses, counts.as_slice())
}

// How far each address of a list lies above the least, where 64 bits tell it of all.
fn distances_of_all<V: ColumnValues<Ipv6Addr>>(
    alloc: Global,
    list: &V,
    addresses: &AddressesFrom,
) -> Result<Option<Vec<u64>>, AllocError>
    ensures { IfOk result (λ found. IfSome found (λ distances.
        map (λ n. addresses.now + n) distances.items ≡ V.values list.now)) }
{
    let count = list.num_vals() as usize;
    let mut distances = Vec::new(alloc);
    let mut values = Vec::new(alloc);
    let mut at = 0;
    while at < count {
        let next = read_list_block(list, at, count, &mut values)?;
        if !push_distances(addresses, values.as_slice(), &mut distances)? {
            return Ok(None);
        }
        at = next;
    }
    Ok(Some(distances))
}

// The same of the addresses in the rows of documents.
fn distances_of_docs<V: ColumnValues<Ipv6Addr>>(
    alloc: Global,
    column: &Column<Ipv6Addr, V>,
    docs: &[DocId],
    addresses: &AddressesFrom,
) -> Result<Option<Vec<u64>>, AllocError>
    requires rising { is_rising docs.now ≡ true }
    requires below { AreBelow (num_docs_in V.values column.now) docs.now }
    ensures { IfOk result (λ found. IfSome found (λ distances. map (λ n. addresses.now + n)
        distances.items ≡ values_in_rows (rows_of_values V.values column.now) docs.now)) }
{
    let mut distances = Vec::new(alloc);
    let mut values = Vec::new(alloc);
    let mut at = 0;
    while at < docs.len() {
        let next = read_docs_block(alloc, column, docs, at, &mut values)?;
        if !push_distances(addresses, values.as_slice(), &mut distances)? {
            return Ok(None);
        }
        at = next;
    }
    Ok(Some(distances))
}

// Adds how far addresses lie above the least, and says whether 64 bits told it of all.
fn push_distances(
    addresses: &AddressesFrom,
    values: &[Ipv6Addr],
    distances: &mut Vec<u64>,
) -> Result<bool, AllocError>
    ensures { IfOk result (λ all. all ≡ true → map (λ n. addresses.now + n) distances.new.items
        ≡ map (λ n. addresses.now + n) distances.old.items ++ values.now) }
{
    for value in values {
        let Some(distance) = addresses.distance(*value) else {
            return Ok(false);
        };
        distances.push(distance)?;
    }
    Ok(true)
}
