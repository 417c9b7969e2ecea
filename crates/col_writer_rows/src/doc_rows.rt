//! The rows of documents that never fall.
ghost use Rattle.std.specs.Prelude.{◌≡◌, ◌<◌, ◌^◌, true, map, length, IfOk, OnOk};
ghost use Rattle.col_common.specs.Ascending.{are_below};
ghost use Rattle.col_model.specs.Dictionary.{cut};
ghost use Rattle.col_model.specs.Positions.{rows_with_value, starts_of};
ghost use Rattle.col_model.specs.U64List.{joined_lists};
ghost use Rattle.col_writer_rows.specs.Counted.{counts_of_rows, steps_from};
ghost use Rattle.col_writer_rows.specs.Rows.{numbers_in_order};

use crate::DocList;
use crate::row_values::sort_rows;
use col_common::RowId;
use std::alloc::{AllocError, Global};

/// The rows with values, and where the values of each start, and those of the last end. They take
/// room by the documents, however many rows there are.
pub(crate) fn rows_of_docs(
    alloc: Global,
    docs: &DocList,
    num_rows: RowId,
) -> Result<(Vec<RowId>, Vec<RowId>), AllocError>
    requires below { are_below num_rows docs.now ≡ true }
    requires few { length docs.now < 2 ^ 32 }
    ensures { IfOk result (λ r. let counts = counts_of_rows num_rows docs.now in
        (r.0.items ≡ rows_with_value counts) × (r.1.items ≡ starts_of counts)) }
{
    docs.never_fall();
    let num_vals = docs.len();
    let room = num_vals.min(u64::from(num_rows)) as usize;
    let mut rows = Vec::with_capacity(alloc, room)?;
    let mut starts = Vec::with_capacity(alloc, room + 1)?;
    // The least document that would be a new row.
    let mut next = 0u64;
    for place in 0..num_vals {
        let doc = docs.get(place as usize);
        if u64::from(doc) < next {
            continue;
        }
        rows.push(doc)?;
        starts.push(place as RowId)?;
        next = u64::from(doc) + 1;
    }
    starts.push(num_vals as RowId)?;
    Ok((rows, starts))
}

// How far each start is behind the one before it, and the first one behind 0.
fn steps(alloc: Global, starts: &[RowId]) -> Result<Vec<u32>, AllocError>
    ensures { IfOk result (λ v. v.items ≡ steps_from 0 starts.now) }
{
    let mut steps = Vec::with_capacity(alloc, starts.len())?;
    let mut last = 0u32;
    for start in starts {
        steps.push(start.saturating_sub(last))?;
        last = *start;
    }
    Ok(steps)
}

/// Sorts the numbers of each row where the flag is set, by the document beside each.
pub(crate) fn sort_docs_if(
    alloc: Global,
    sorts: bool,
    docs: &DocList,
    num_rows: RowId,
    numbers: &mut [u64],
) -> Result<(), AllocError>
    requires below { are_below num_rows docs.now ≡ true }
    requires beside { length docs.now ≡ length numbers.old }
    requires few { length docs.now < 2 ^ 32 }
    ensures { let counts = counts_of_rows num_rows docs.now in OnOk result (numbers.new
        ≡ joined_lists (map (numbers_in_order sorts) (cut counts numbers.old))) }
{
    docs.never_fall();
    if !sorts {
        return Ok(());
    }
    let (_rows, starts) = rows_of_docs(alloc, docs, num_rows)?;
    let lengths = steps(alloc, &starts)?;
    sort_rows(&lengths, numbers);
    Ok(())
}
