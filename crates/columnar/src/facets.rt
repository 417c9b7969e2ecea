//! Facets: how often each cell of a column stands in the rows of some documents.

pub use col_dynamic::TermBytes;
pub use col_facet::{FacetCell, FacetCount, facet, facet_all, merge_facets, top_facets};
