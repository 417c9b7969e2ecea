//! Laws of merged values, each the contract of a call that does nothing.
ghost use Rattle.col_merge_values.specs.Laws.{MergedValuesAreRows, MergedCellsArePicked};

/// Behind a merged index merged values are a column of the picked rows.
pub fn merged_values_are_rows<T>()
    ensures { MergedValuesAreRows T }
{}

/// The same with cells: those of merged tables.
pub fn merged_cells_are_picked<T>()
    ensures { MergedCellsArePicked T }
{}
