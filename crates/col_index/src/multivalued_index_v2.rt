//! Rows that have any number of values, in version 2.
ghost use Rattle.std.specs.Prelude.{◌≡◌, ◌≤◌, ◌<◌, ◌+◌, ◌^◌, ◌==◌, not, true, length, take, sum, slice_index, OnOk};
ghost use Rattle.std.specs.Prelude.{◌++◌, slice_get, IfOk, IfErr};
ghost use Rattle.col_common.specs.declared.error.ColumnarError.TheVariants as refusals;
ghost use Rattle.col_common.specs.Ascending.{is_rising, differences, AreBelow};
ghost use Rattle.col_model.specs.Index.{offset_counts};
ghost use Rattle.col_model.specs.Positions.{start_of, index_range, rows_with_value, next_row, starts_of, rows_at};
ghost use Rattle.col_numbers.specs.Readers.{list_of};
ghost use Rattle.col_index.specs.Offsets.{AreOldOffsets, range_if_any, row_positions, is_start_list, offsets_by};
ghost use Rattle.col_index.specs.Appending.{PushesValues};

use crate::appending::push_run;
use crate::held_rows::HeldRows;
use crate::non_null_docs::NonNullDocs;
use crate::optional_index::{OptionalIndex, load_numbers};
use crate::rank_near::{InRuns, RankNear, Ranked, Walked};
use crate::rows_near::RowsNear;
use crate::search::Place;
use crate::select_near::SelectNear;
use crate::set::Set;
use crate::start_offsets::{are_starts, push_runs};
use crate::windows::{TABLE_LEN, Window, window_at};
use col_common::{ColumnarError, DocId, RowId};
use col_numbers::U64Values;
use col_values::ColumnValues;
use std::alloc::{AllocError, Global};
use std::marker::Model;
use std::ops::Range;

/// How far apart positions are on the average where windows still pay.
const MAX_APART: usize = 32;

/// The index of version 2: rows with a value, and where the values of each start. Contracts see
/// both lists.
#[derive(Drop)]
pub struct MultiValueIndexV2 {
    optional_index: OptionalIndex,
    start_index_column: U64Values,
}

impl Model for MultiValueIndexV2 {
    ghost use Rattle.std.specs.Prelude.{◌≡◌, true};
    ghost use Rattle.col_model.specs.Index.{RowOffsets, are_starts};
    ghost use Rattle.col_numbers.specs.Readers.{list_of};
    ghost use Rattle.col_index.specs.Sets.{AreRows};
    ghost use Rattle.col_index.specs.Offsets.{AreOffsets};

    ghost Value = { RowOffsets };

    ghost view = { λ i. record { set = i.optional_index; starts = list_of i.start_index_column } };

    ghost invariant = { λ i. AreOffsets
        (record { set = i.optional_index; starts = list_of i.start_index_column }) };
}

impl MultiValueIndexV2 {
    /// The index with one more start offset than rows, from 0 on, which never fall.
    pub fn for_test(
        alloc: Global,
        start_offsets: &[RowId],
    ) -> Result<MultiValueIndexV2, ColumnarError>
        requires { AreOldOffsets start_offsets.now }
        ensures ok { IfOk result (λ index. offset_counts index ≡ differences start_offsets.now) }
        ensures err { IfErr result (λ e. e ≡ refusals.OutOfMemory) }
    {
        let mut rows = Vec::new(alloc);
        let mut starts = Vec::new(alloc);
        push_runs(start_offsets, &mut rows, &mut starts)?;
        let num_rows = (start_offsets.len() - 1) as RowId;
        let optional_index = OptionalIndex::for_test(alloc, num_rows, &rows)?;
        let start_index_column = load_numbers(alloc, &starts)?;
        Ok(MultiValueIndexV2 {
            optional_index,
            start_index_column,
        })
    }

    /// The index of rows with these offsets, if they are the rows' offsets.
    pub(crate) fn from_parts(
        optional_index: OptionalIndex,
        start_index_column: U64Values,
    ) -> Option<MultiValueIndexV2>
        ensures { result ≡ offsets_by optional_index (list_of start_index_column) }
    {
        optional_index.rows_rise();
        if !are_starts(optional_index.num_non_nulls(), &start_index_column) {
            return None;
        }
        Some(MultiValueIndexV2 {
            optional_index,
            start_index_column,
        })
    }

    /// The rows with a value.
    pub fn optional_index(&self) -> &OptionalIndex
        ensures { result.now ≡ self.now.set }
    {
        &self.optional_index
    }

    /// Where the values of each row with a value start, and behind the last where they end.
    pub fn start_index_column(&self) -> &U64Values
        ensures offsets { list_of result.now ≡ self.now.starts }
        ensures counts { list_of result.now ≡ starts_of (offset_counts self.now) }
        ensures fits { AreBelow (2 ^ 32) (list_of result.now) }
    {
        &self.start_index_column
    }

    /// How many rows there are.
    pub(crate) fn num_docs(&self) -> u32
        ensures { result ≡ length (offset_counts self.now) }
    {
        self.optional_index.num_docs()
    }

    /// Whether a row has a value.
    pub(crate) fn has_value(&self, doc_id: DocId) -> bool
        ensures { result ≡ not (slice_index (offset_counts self.now) doc_id == 0) }
    {
        self.optional_index.contains(doc_id)
    }

    /// The first row with a value that isn't before a target.
    pub(crate) fn next_non_null_doc(&self, target: DocId) -> Option<DocId>
        ensures { result ≡ next_row (rows_with_value (offset_counts self.now)) target }
    {
        self.optional_index.next_non_null_doc(target)
    }

    /// The rows with a value, ascending.
    pub(crate) fn iter_non_null_docs(&self) -> NonNullDocs<'_>
        ensures { result ≡ rows_with_value (offset_counts self.now) }
    {
        self.optional_index.iter_non_null_docs()
    }

    /// The same index once more, which shares its bytes and has ranks of its own.
    pub fn try_clone(&self, alloc: Global) -> Result<MultiValueIndexV2, AllocError>
        ensures { IfOk result (λ index. index ≡ self.now) }
    {
        Ok(MultiValueIndexV2 {
            optional_index: self.optional_index.try_clone(alloc)?,
            start_index_column: self.start_index_column.try_clone(alloc)?,
        })
    }

    // Where the values of the row with a rank start.
    #[inline(always)]
    fn start_at(&self, rank: RowId) -> RowId
        requires { rank ≤ length self.now.set.rows }
        ensures { result ≡ slice_index self.now.starts rank }
    {
        self.start_index_column.get_val(rank) as RowId
    }

    // The positions of the values of the row with a rank.
    #[inline(always)]
    fn range_at(&self, rank: RowId) -> Range<RowId>
        requires { rank < length self.now.set.rows }
        ensures start { result.start ≡ slice_index self.now.starts rank }
        ensures end { result.end ≡ slice_index self.now.starts (rank + 1) }
    {
        let (start, end) = self.start_index_column.get_pair(rank);
        start as RowId..end as RowId
    }

    /// Where the values of the row with a rank end.
    #[inline(always)]
    pub(crate) fn end_at(&self, place: u64) -> Option<RowId>
        ensures { result ≡ slice_get (starts_of (offset_counts self.now)) (place + 1) }
    {
        if place >= u64::from(self.start_index_column.num_vals()) - 1 {
            return None;
        }
        Some(self.start_at(place as u32 + 1))
    }

    /// How many values stand before a row.
    pub fn start_of(&self, doc_id: DocId) -> RowId
        ensures { result ≡ start_of (offset_counts self.now) doc_id }
    {
        self.start_at(self.optional_index.rank(doc_id))
    }

    /// The positions of a row's values.
    #[inline(always)]
    pub fn range(&self, doc_id: DocId) -> Range<RowId>
        ensures start { result.start ≡ (index_range (offset_counts self.now) doc_id).0 }
        ensures end { result.end ≡ (index_range (offset_counts self.now) doc_id).1 }
    {
        if doc_id >= self.optional_index.num_docs() {
            return 0..0;
        }
        let (rank, held) = self.optional_index.rank_and_contains(doc_id);
        if held {
            return self.range_at(rank);
        }
        let start = self.start_at(rank);
        start..start
    }

    /// The positions of a row's values, and 0..0 where it has none.
    #[inline(always)]
    pub(crate) fn range_if_any(&self, doc_id: DocId) -> Range<RowId>
        ensures start { result.start ≡ (range_if_any (offset_counts self.now) doc_id).0 }
        ensures end { result.end ≡ (range_if_any (offset_counts self.now) doc_id).1 }
    {
        match self.optional_index.rank_by_bits(doc_id) {
            Some(rank) => self.range_at(rank),
            None => 0..0,
        }
    }

    /// Appends each document once for each of its values, and these values' positions, as far as
    /// memory reaches.
    pub(crate) fn push_positions(
        &self,
        docs: &[DocId],
        docs_out: &mut Vec<DocId>,
        rows_out: &mut Vec<RowId>,
    ) -> Result<(), AllocError>
        ensures { PushesValues (row_positions (offset_counts self.now) docs.now)
            docs_out.old.items docs_out.new.items rows_out.old.items rows_out.new.items result }
    {
        match self.optional_index.rows_near() {
            RowsNear::Walked(rows) => {
                self.push_positions_by(&Walked { rows }, docs, docs_out, rows_out)
            }
            RowsNear::Ranked(index) => {
                self.push_positions_by(&Ranked { index }, docs, docs_out, rows_out)
            }
            RowsNear::InRuns(runs) => {
                self.push_positions_by(&InRuns { runs }, docs, docs_out, rows_out)
            }
        }
    }

    // The same by the ranks of its rows.
    #[inline(always)]
    fn push_positions_by<R: RankNear>(
        &self,
        rows: &R,
        docs: &[DocId],
        docs_out: &mut Vec<DocId>,
        rows_out: &mut Vec<RowId>,
    ) -> Result<(), AllocError>
        requires { R.rows rows.now ≡ self.now.set.rows }
        ensures { PushesValues (row_positions (offset_counts self.now) docs.now)
            docs_out.old.items docs_out.new.items rows_out.old.items rows_out.new.items result }
    {
        // That the offsets are those of the rows is known where a field is read.
        let _ = &self.optional_index;
        let mut place = rows.first_place();
        for doc in docs {
            let doc = *doc;
            let Some(rank) = rows.rank_near(&mut place, doc) else {
                continue;
            };
            let positions = self.range_at(rank);
            push_run(docs_out, rows_out, doc, positions.start, positions.end)?;
        }
        Ok(())
    }

    /// Puts in the place of ascending positions the rows that have them, each once.
    pub fn select_batch_in_place(&self, doc_id_start: DocId, ranks: &mut Vec<RowId>)
        requires rising { is_rising ranks.old.items ≡ true }
        requires below { AreBelow (sum (offset_counts self.now)) ranks.old.items }
        ensures { ranks.new.items ≡ rows_at (offset_counts self.now) ranks.old.items }
    {
        let kept = self.select_rows(ranks);
        ranks.truncate(kept);
    }

    // The same in the front of a list; how many rows there are.
    fn select_rows(&self, ranks: &mut [RowId]) -> usize
        requires rising { is_rising ranks.old ≡ true }
        requires below { AreBelow (sum (offset_counts self.now)) ranks.old }
        ensures { take result ranks.new ≡ rows_at (offset_counts self.now) ranks.old }
    {
        match self.optional_index.held() {
            HeldRows::Listed(rows) => self.select_rows_by(&Walked { rows }, ranks),
            HeldRows::InRuns(runs) => self.select_rows_by(&InRuns { runs }, ranks),
        }
    }

    // The same by its rows with a value.
    #[inline(always)]
    fn select_rows_by<R: SelectNear>(&self, rows: &R, ranks: &mut [RowId]) -> usize
        requires rows { R.rows rows.now ≡ self.now.set.rows }
        requires rising { is_rising ranks.old ≡ true }
        requires below { AreBelow (sum (offset_counts self.now)) ranks.old }
        ensures { take result ranks.new ≡ rows_at (offset_counts self.now) ranks.old }
    {
        if are_close(ranks) {
            self.select_close_rows(rows, ranks)
        } else {
            self.select_distant_rows(rows, ranks)
        }
    }

    // The same by windows, in which no step depends on how far apart the positions are.
    fn select_close_rows<R: SelectNear>(&self, rows: &R, ranks: &mut [RowId]) -> usize
        requires rows { R.rows rows.now ≡ self.now.set.rows }
        requires rising { is_rising ranks.old ≡ true }
        requires below { AreBelow (sum (offset_counts self.now)) ranks.old }
        ensures { take result ranks.new ≡ rows_at (offset_counts self.now) ranks.old }
    {
        let mut table = [0; TABLE_LEN];
        let mut window = Window {
            position: 0,
            len: 0,
        };
        let mut near = rows.none_near();
        let mut before = 0;
        let mut kept = 0;
        for at in 0..ranks.len() {
            let position = ranks[at];
            window = window_at(&self.start_index_column, position, window, &mut table);
            let started = table[(position - window.position) as usize];
            ranks[kept] = rows.select_near(&mut near, started - 1);
            kept += is_other(started, before) as usize;
            before = started;
        }
        kept
    }

    // The same by places, which are few steps apart or many.
    fn select_distant_rows<R: SelectNear>(&self, rows: &R, ranks: &mut [RowId]) -> usize
        requires rows { R.rows rows.now ≡ self.now.set.rows }
        requires rising { is_rising ranks.old ≡ true }
        requires below { AreBelow (sum (offset_counts self.now)) ranks.old }
        ensures { take result ranks.new ≡ rows_at (offset_counts self.now) ranks.old }
    {
        let mut place = Place::first(&self.start_index_column);
        let mut near = rows.none_near();
        let mut kept = 0;
        for at in 0..ranks.len() {
            let before = place.at;
            place = place.seek(&self.start_index_column, u64::from(ranks[at]) + 1);
            if place.at == before {
                continue;
            }
            ranks[kept] = rows.select_near(&mut near, place.at - 1);
            kept += 1;
        }
        kept
    }
}

// Whether positions lie close enough to one another for windows to pay.
fn are_close(positions: &[RowId]) -> bool {
    let [first, .., last] = positions else {
        return false;
    };
    last.saturating_sub(*first) as usize / MAX_APART <= positions.len()
}

// Whether a number isn't another.
#[inline(always)]
fn is_other(number: u32, other: u32) -> bool
    ensures { result ≡ not (number == other) }
{
    number != other
}
