//! Rows by the first terms of columns.
ghost use Rattle.std.specs.Prelude.{◌≡◌, ◌<◌, ◌^◌, length, map, IfOk, IfErr};
ghost use Rattle.col_common.specs.declared.error.ColumnarError.TheVariants as refusals;
ghost use Rattle.col_order.specs.Orders.{address_of};
ghost use Rattle.col_merge_slot.specs.Segments.{HaveRows};
ghost use Rattle.col_sort.specs.Texts.{SortsTexts};

use crate::key_bounds::rows_between;
use crate::segment_texts::{push_texts, segment_texts, texts_are_told};
use col_common::{ColumnarError, RowAddr, RowId};
use col_dynamic::DynamicColumn;
use col_merge_terms::compute_merged_term_ord_mapping;
use std::alloc::Global;

/// All rows of segments by the terms of their columns, or by falling ones. The columns of terms are
/// taken out.
pub(crate) fn rows_by_texts(
    alloc: Global,
    columns: &mut [Option<DynamicColumn>],
    counts: &[RowId],
    reversed: bool,
) -> Result<Vec<RowAddr>, ColumnarError>
    requires rows { HaveRows counts.now columns.old }
    requires segments { length counts.now < 2 ^ 32 }
    ensures ok { IfOk result
        (λ rows. SortsTexts counts.now columns.old reversed (map address_of rows.items)) }
    ensures err { IfErr result (λ e. e ≡ refusals.OutOfMemory) }
{
    let texts = segment_texts(alloc, columns, counts)?;
    texts_are_told(&texts);
    let places = compute_merged_term_ord_mapping(alloc, &texts)?;
    let mut rows = rows_between(alloc, Some((0, greatest_place(&places))), counts);
    push_texts(alloc, &texts, &places, &mut rows)?;
    Ok(rows.into_rows(alloc, reversed)?)
}

// The greatest place of a term, where a column's places rise: a hint alone.
fn greatest_place(places: &[Vec<u64>]) -> u64 {
    let mut greatest = 0;
    for list in places {
        if let Some(&last) = list.last() {
            greatest = last.max(greatest);
        }
    }
    greatest
}
