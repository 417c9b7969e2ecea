//! Facets of addresses by their codes, where a list has few.
ghost use Rattle.std.specs.Prelude.{◌≡◌, ◌+◌, ◌<◌, ◌==◌, ℕ, length, map, slice_index, count_by, IfOk, IfSome};
ghost use Rattle.col_compact.specs.Coded.{numbers_of};
ghost use Rattle.col_facet.specs.Facets.{facets_of};
ghost use Rattle.col_facet.specs.Tables.{address_at, AreCodesIn};
ghost use Rattle.col_facet.specs.declared.facet_cell.FacetCell.TheVariants as cells;

use crate::facet_cell::{FacetCell, FacetCount};
use crate::place_cells::PlaceCells;
use crate::table::{count_number, counted_facets, places_of};
use col_compact::CompactSpaceDecompressor;
use col_values::ColumnValues;
use std::alloc::{AllocError, Global};

impl PlaceCells<u64> for CompactSpaceDecompressor {
    ghost cells = { λ list n. address_at list.ranges n };

    fn cell_at(&self, _alloc: Global, place: u64) -> Result<FacetCell, AllocError> {
        if place >= u64::from(self.max_code()) {
            return Ok(FacetCell::Addr(0));
        }
        Ok(FacetCell::Addr(self.compact_to_u128(place as u32 + 1)))
    }
}

/// How often the cells of the addresses of a list stand there, by a table of its codes, where they
/// are few.
pub(crate) fn facets_of_codes(
    alloc: Global,
    list: &CompactSpaceDecompressor,
) -> Result<Option<Vec<FacetCount>>, AllocError>
    ensures { IfOk result (λ found. IfSome found (λ facets. facets.items
        ≡ facets_of (map (λ n. cells.Addr n) (numbers_of list.now)))) }
{
    let num_codes = list.max_code();
    if num_codes as usize > places_of(list.num_vals() as usize) {
        return Ok(None);
    }
    list.numbers_rise();
    let counts = counts_of_codes(alloc, list, num_codes as usize)?;
    Ok(Some(counted_facets(alloc, list, counts.as_slice())?))
}

// How often each of so many codes stands in a list.
fn counts_of_codes(
    alloc: Global,
    list: &CompactSpaceDecompressor,
    len: usize,
) -> Result<Vec<u64>, AllocError>
    ensures len { IfOk result (λ counts. length counts.items ≡ len) }
    ensures codes { IfOk result (λ _. AreCodesIn list.now.ranges list.now.codes) }
    ensures counts { IfOk result (λ counts. (i : ℕ) → i < len → slice_index counts.items i
        ≡ count_by (λ x. x == 1 + i) list.now.codes) }
{
    let mut counts = vec![in alloc; 0; len]?;
    count_codes(list, counts.as_mut_slice());
    Ok(counts)
}

// Counts the codes of a list, where none was counted yet.
fn count_codes(list: &CompactSpaceDecompressor, counts: &mut [u64])
    requires none { (i : ℕ) → slice_index counts.old i ≡ 0 }
    ensures codes { AreCodesIn list.now.ranges list.now.codes }
    ensures counts { (i : ℕ) → i < length counts.old → slice_index counts.new i
        ≡ count_by (λ x. x == 1 + i) list.now.codes }
{
    let count = list.num_vals();
    let mut idx = 0;
    while idx < count {
        count_number(u64::from(list.get_compact(idx)), 1, counts);
        idx += 1;
    }
}
