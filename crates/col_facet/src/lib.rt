//! Facets of columns: how often each cell stands in the rows of some documents. Contracts see the
//! counts as a list, ascending by cell.
#![tactic(auto)]

mod addresses;
mod blocks;
mod codes;
mod counting;
mod facet_cell;
mod facet_number;
mod facet_value;
mod facets;
mod merge;
mod numbers;
mod place_cells;
mod runs;
mod table;
mod top;
mod totals;
mod whole;

pub use facet_cell::{FacetCell, FacetCount};
pub use facets::facet;
pub use merge::{merge_facets, totals_are_sums_of_counts};
pub use top::top_facets;
pub use whole::facet_all;
