//! Describes columns.
ghost use Rattle.std.specs.Prelude.{◌≡◌, IfOk};
ghost use Rattle.col_dynamic.specs.Dynamic.{type_of, content_of};
ghost use Rattle.col_look.specs.Described.{told_by, told_of};

use crate::description::Description;
use crate::ends::ends;
use crate::terms::distinct_terms;
use crate::valued_rows::{num_rows_with_values, values_are_counted};
use col_dynamic::DynamicColumn;
use std::alloc::{AllocError, Global};

/// Describes a column. Its bounds and its index are asked; there is a walk where different terms
/// are counted, and where several values stand in a row in version 1.
pub fn describe(alloc: Global, column: &DynamicColumn) -> Result<Description, AllocError>
    ensures { IfOk result (λ description. told_by description
        ≡ told_of (type_of column.now) (content_of column.now)) }
{
    values_are_counted(column);
    let (least, greatest) = ends(alloc, column)?;
    let distinct = distinct_terms(alloc, column)?;
    Ok(Description {
        column_type: column.column_type(),
        cardinality: column.get_cardinality(),
        num_values: column.num_values(),
        num_rows_with_values: num_rows_with_values(column),
        distinct,
        least,
        greatest,
    })
}
