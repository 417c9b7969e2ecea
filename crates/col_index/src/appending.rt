//! Documents that are appended to one list, and positions to another.
ghost use Rattle.std.specs.Prelude.{◌-◌, [], ◌∷◌};
ghost use Rattle.col_index.specs.Appending.{PushesBoth, PushesValues};
ghost use Rattle.col_index.specs.Offsets.{run};

use col_common::{DocId, RowId};
use std::alloc::AllocError;

/// Appends a document and the position of one of its values, as far as memory reaches.
#[inline]
pub(crate) fn push_pair(
    docs_out: &mut Vec<DocId>,
    rows_out: &mut Vec<RowId>,
    doc: DocId,
    row: RowId,
) -> Result<(), AllocError>
    ensures { PushesBoth docs_out.old.items docs_out.new.items
        rows_out.old.items rows_out.new.items result (doc ∷ []) (row ∷ []) }
{
    docs_out.push(doc)?;
    rows_out.push(row)?;
    Ok(())
}

/// Appends a document once for each position of a range, and these, as far as memory reaches.
#[inline(always)]
pub(crate) fn push_run(
    docs_out: &mut Vec<DocId>,
    rows_out: &mut Vec<RowId>,
    doc: DocId,
    start: RowId,
    end: RowId,
) -> Result<(), AllocError>
    ensures { PushesValues (run doc start (end - start))
        docs_out.old.items docs_out.new.items rows_out.old.items rows_out.new.items result }
{
    for position in start..end {
        docs_out.push(doc)?;
        rows_out.push(position)?;
    }
    Ok(())
}
