//! Rows that have any number of values, in version 1.
ghost use Rattle.std.specs.Prelude.{◌≡◌, ◌≤◌, ◌<◌, ◌+◌, ◌^◌, ◌==◌, ◌&&◌, not, true, nat_le, length, take, sum, slice_index};
ghost use Rattle.std.specs.Prelude.{slice_get, option_map, min, IfOk, IfSome};
ghost use Rattle.std.specs.List.{list_all};
ghost use Rattle.col_common.specs.Ascending.{is_rising, is_never_falling, differences, AreBelow};
ghost use Rattle.col_model.specs.Index.{are_offsets};
ghost use Rattle.col_model.specs.Positions.{rank, start_of, index_range, rows_with_value, next_row, starts_of, rows_at};
ghost use Rattle.col_numbers.specs.Readers.{list_of};
ghost use Rattle.col_index.specs.Offsets.{old_offsets_by, without_repeats, range_if_any, row_positions};
ghost use Rattle.col_index.specs.Appending.{PushesValues};
ghost use Rattle.col_index.specs.Walked.{IsHint32};

use crate::appending::push_run;
use crate::non_null_docs::NonNullDocs;
use crate::rising::stay_below;
use crate::start_offsets::OFFSETS;
use col_common::{DocId, RowId};
use col_numbers::U64Values;
use col_values::ColumnValues;
use std::alloc::{AllocError, Global};
use std::marker::Model;
use std::ops::Range;

/// The index of version 1: where the values of each row start, and where those of the last end.
/// Contracts see these offsets.
#[derive(Drop)]
pub struct MultiValueIndexV1 {
    start_index_column: U64Values,
}

impl Model for MultiValueIndexV1 {
    ghost use Rattle.std.specs.Prelude.{List, ℕ};
    ghost use Rattle.col_numbers.specs.Readers.{list_of};
    ghost use Rattle.col_index.specs.Offsets.{AreOldOffsets};

    ghost Value = { List ℕ };

    ghost view = { λ i. list_of i.start_index_column };

    ghost invariant = { λ i. AreOldOffsets (list_of i.start_index_column) };
}

impl MultiValueIndexV1 {
    ghost use Rattle.col_index.specs.Offsets.{AreOldOffsets};

    /// The index with these offsets, if they begin with 0, never fall and are numbers of 32 bits.
    pub(crate) fn from_offsets(start_index_column: U64Values) -> Option<MultiValueIndexV1>
        ensures { result ≡ old_offsets_by (list_of start_index_column) }
    {
        if !are_old_offsets(&start_index_column) {
            return None;
        }
        // That there are fewer than 2 ^ 32 offsets is known of their count.
        let _count = start_index_column.num_vals();
        Some(MultiValueIndexV1 { start_index_column })
    }

    /// The same index once more, which shares its bytes.
    pub fn try_clone(&self, alloc: Global) -> Result<MultiValueIndexV1, AllocError>
        ensures { IfOk result (λ index. index ≡ self.now) }
    {
        Ok(MultiValueIndexV1 {
            start_index_column: self.start_index_column.try_clone(alloc)?,
        })
    }

    /// Where the values of each row start, and behind the last where they end: a row without
    /// values starts where the next one does.
    pub fn start_index_column(&self) -> &U64Values
        ensures offsets { list_of result.now ≡ self.now }
        ensures counts { without_repeats (list_of result.now) ≡ starts_of (differences self.now) }
        ensures fits { AreBelow (2 ^ 32) (list_of result.now) }
    {
        &self.start_index_column
    }

    // That the offsets begin with 0 and never fall.
    fn offsets_never_fall(&self)
        ensures { AreOldOffsets self.now }
    {
        let _ = &self.start_index_column;
    }

    /// How many rows there are.
    pub(crate) fn num_docs(&self) -> u32
        ensures { result ≡ length (differences self.now) }
    {
        self.start_index_column.num_vals() - 1
    }

    // Where the values of a row start, or those of the last row end.
    #[inline(always)]
    fn offset_at(&self, at: RowId) -> RowId
        requires { at ≤ length (differences self.now) }
        ensures { result ≡ slice_index self.now at }
    {
        self.start_index_column.get_val(at) as RowId
    }

    /// How many values stand before a row.
    pub fn start_of(&self, doc_id: DocId) -> RowId
        ensures { result ≡ start_of (differences self.now) doc_id }
    {
        self.offsets_never_fall();
        self.offset_at(doc_id.min(self.num_docs()))
    }

    /// The positions of a row's values.
    #[inline(never)]
    pub fn range(&self, doc_id: DocId) -> Range<RowId>
        ensures start { result.start ≡ (index_range (differences self.now) doc_id).0 }
        ensures end { result.end ≡ (index_range (differences self.now) doc_id).1 }
    {
        if doc_id >= self.num_docs() {
            return 0..0;
        }
        let (start, end) = self.start_index_column.get_pair(doc_id);
        start as RowId..end as RowId
    }

    /// The positions of a row's values, and 0..0 where it has none.
    #[inline(never)]
    pub(crate) fn range_if_any(&self, doc_id: DocId) -> Range<RowId>
        ensures start { result.start ≡ (range_if_any (differences self.now) doc_id).0 }
        ensures end { result.end ≡ (range_if_any (differences self.now) doc_id).1 }
    {
        let positions = self.range(doc_id);
        if positions.start == positions.end {
            return 0..0;
        }
        positions
    }

    /// Whether a row has a value.
    pub(crate) fn has_value(&self, doc_id: DocId) -> bool
        ensures { result ≡ not (slice_index (differences self.now) doc_id == 0) }
    {
        let positions = self.range(doc_id);
        positions.start != positions.end
    }

    /// The first row with a value from a row on, and where its values end.
    #[inline(always)]
    pub(crate) fn next_run(&self, from: DocId) -> Option<(RowId, RowId)>
        ensures row { option_map (λ r. r.0) result
            ≡ slice_get (rows_with_value (differences self.now))
            (rank (rows_with_value (differences self.now)) from) }
        ensures end { option_map (λ r. r.1) result
            ≡ slice_get (starts_of (differences self.now))
            (rank (rows_with_value (differences self.now)) from + 1) }
    {
        self.offsets_never_fall();
        let start = self.start_of(from);
        for doc_id in from..self.num_docs() {
            let end = self.offset_at(doc_id + 1);
            if end != start {
                return Some((doc_id, end));
            }
        }
        None
    }

    /// Where the values of the row with a rank end, and the row behind it. The row is looked for
    /// from a number on, unless that is 0.
    #[inline(always)]
    pub(crate) fn end_at(&self, place: u64, from: DocId) -> Option<(DocId, RowId)>
        requires { IsHint32 (rows_with_value (differences self.now)) from place }
        ensures end { option_map (λ r. r.1) result
            ≡ slice_get (starts_of (differences self.now)) (place + 1) }
        ensures hint { IfSome result (λ r.
            IsHint32 (rows_with_value (differences self.now)) r.0 (place + 1)) }
    {
        self.offsets_never_fall();
        let from = self.first_from(place, from);
        match self.next_run(from) {
            Some((row, end)) => Some((row + 1, end)),
            None => None,
        }
    }

    // A row before which so many rows with a value stand, or all where there are fewer.
    #[inline(never)]
    fn first_from(&self, place: u64, from: DocId) -> DocId
        requires { IsHint32 (rows_with_value (differences self.now)) from place }
        ensures { rank (rows_with_value (differences self.now)) result
            ≡ min place (length (rows_with_value (differences self.now))) }
    {
        if from != 0 {
            return from;
        }
        self.offsets_never_fall();
        let mut behind = 0;
        for passed in 0..place {
            match self.next_run(behind) {
                Some((row, _)) => behind = row + 1,
                None => return behind,
            }
        }
        behind
    }

    /// The first row with a value that isn't before a target. Out of line it writes no memory, so
    /// that a loop that may call it needn't ask anew what it knows.
    #[inline(never)]
    pub(crate) fn next_non_null_doc(&self, target: DocId) -> Option<DocId>
        ensures { result ≡ next_row (rows_with_value (differences self.now)) target }
    {
        match self.next_run(target) {
            Some((doc_id, _)) => Some(doc_id),
            None => None,
        }
    }

    /// The rows with a value, ascending.
    pub(crate) fn iter_non_null_docs(&self) -> NonNullDocs<'_>
        ensures { result ≡ rows_with_value (differences self.now) }
    {
        NonNullDocs::of_offsets(self)
    }

    /// Appends each document once for each of its values, and these values' positions, as far as
    /// memory reaches.
    pub(crate) fn push_positions(
        &self,
        docs: &[DocId],
        docs_out: &mut Vec<DocId>,
        rows_out: &mut Vec<RowId>,
    ) -> Result<(), AllocError>
        ensures { PushesValues (row_positions (differences self.now) docs.now)
            docs_out.old.items docs_out.new.items rows_out.old.items rows_out.new.items result }
    {
        for doc in docs {
            let doc = *doc;
            let positions = self.range(doc);
            push_run(docs_out, rows_out, doc, positions.start, positions.end)?;
        }
        Ok(())
    }

    /// Puts in the place of ascending positions the rows that have them, each once. No position is
    /// before the values of the start.
    pub(crate) fn select_batch_in_place(&self, doc_id_start: DocId, ranks: &mut Vec<RowId>)
        requires rising { is_rising ranks.old.items ≡ true }
        requires below { AreBelow (sum (differences self.now)) ranks.old.items }
        requires start { list_all (λ p. nat_le (start_of (differences self.now) doc_id_start) p)
            ranks.old.items ≡ true }
        ensures { ranks.new.items ≡ rows_at (differences self.now) ranks.old.items }
    {
        let kept = self.select_rows(doc_id_start, ranks);
        ranks.truncate(kept);
    }

    // The same in the front of a list, by a walk over the rows beside the positions; how many rows
    // there are.
    fn select_rows(&self, doc_id_start: DocId, ranks: &mut [RowId]) -> usize
        requires rising { is_rising ranks.old ≡ true }
        requires below { AreBelow (sum (differences self.now)) ranks.old }
        requires start { list_all (λ p. nat_le (start_of (differences self.now) doc_id_start) p)
            ranks.old ≡ true }
        ensures { take result ranks.new ≡ rows_at (differences self.now) ranks.old }
    {
        self.offsets_never_fall();
        let mut doc_id = doc_id_start.min(self.num_docs());
        let mut end = self.offset_at(doc_id);
        let mut kept = 0;
        for at in 0..ranks.len() {
            let position = ranks[at];
            if position < end {
                continue;
            }
            let row = self.row_of(doc_id, position);
            ranks[kept] = row;
            kept += 1;
            doc_id = row + 1;
            end = self.offset_at(doc_id);
        }
        kept
    }

    // The row that has a position, which isn't before the values of a row.
    fn row_of(&self, from: DocId, position: RowId) -> DocId
        requires from { from ≤ length (differences self.now) }
        requires start { slice_index self.now from ≤ position }
        requires below { position < sum (differences self.now) }
        ensures inside { result < length (differences self.now) }
        ensures start { slice_index self.now result ≤ position }
        ensures end { position < slice_index self.now (result + 1) }
    {
        self.offsets_never_fall();
        for doc_id in from..self.num_docs() {
            if position < self.offset_at(doc_id + 1) {
                return doc_id;
            }
        }
        unreachable!()
    }
}

// Whether offsets begin with 0, never fall and are numbers of 32 bits: they are walked where the
// list doesn't know whether it falls.
fn are_old_offsets(starts: &U64Values) -> bool
    ensures { result ≡ (are_offsets (list_of starts.now) && is_never_falling (list_of starts.now)) }
{
    let count = starts.num_vals();
    if count == 0 {
        return false;
    }
    if starts.get_val(0) != 0 {
        return false;
    }
    if let Some(stays) = starts.never_falls() {
        return stays && stay_below(OFFSETS, starts);
    }
    let mut last = 0;
    for at in 1..count {
        let start = starts.get_val(at);
        if start < last {
            return false;
        }
        if start > u64::from(u32::MAX) {
            return false;
        }
        last = start;
    }
    true
}
