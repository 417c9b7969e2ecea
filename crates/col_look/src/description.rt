//! What is told of columns.

use col_dynamic::ColumnType;
use col_facet::FacetCell;
use col_text::Cardinality;

/// What a column holds: how many values there are, how many rows have one, how many different terms
/// those of texts and bytes are, and the least and the greatest value.
#[derive(Drop)]
pub struct Description {
    pub column_type: ColumnType,
    pub cardinality: Cardinality,
    pub num_values: u32,
    pub num_rows_with_values: u32,
    pub distinct: Option<u64>,
    pub least: Option<FacetCell>,
    pub greatest: Option<FacetCell>,
}
