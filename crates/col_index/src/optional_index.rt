//! Rows that have at most one value.
ghost use Rattle.std.specs.Prelude.{◌≡◌, [], ◌∷◌, ◌^◌, ◌<◌, ◌≤◌, ◌+◌, ◌-◌, ◌*◌, length, map, slice_get, Some};
ghost use Rattle.std.specs.Prelude.{IfOk, IfErr, IfSome};
ghost use Rattle.col_common.specs.Ascending.{AreBelow};
ghost use Rattle.col_common.specs.declared.error.ColumnarError.TheVariants as refusals;
ghost use Rattle.col_common.specs.Decoding.{Decodes};
ghost use Rattle.col_model.specs.Index.{RowSet, runs_of, set_counts};
ghost use Rattle.col_model.specs.Positions.{rank, next_row, index_range};
ghost use Rattle.col_index.specs.Held.{set_held};
ghost use Rattle.col_index.specs.Offsets.{range_if_any};
ghost use Rattle.col_index.specs.Runs.{runs_by};
ghost use Rattle.col_index.specs.Sets.{AreRows, holds, set_by};
ghost use Rattle.col_numbers.specs.Readers.{list_of};

use crate::held_rows::HeldRows;
use crate::index_runs::IndexRuns;
use crate::listed_rows::ListedRows;
use crate::non_null_docs::NonNullDocs;
use crate::rank_near::{InRuns, Walked};
use crate::rank_words::RankWords;
use crate::ranks::Ranks;
use crate::row_runs::RowRuns;
use crate::rows_near::RowsNear;
use crate::select_cursor::OptionalIndexSelectCursor;
use crate::select_near::select_all;
use crate::selected_runs::NumberedRun;
use crate::set::Set;
use col_common::{ColumnarError, DocId, RowId, Steps};
use col_numbers::{CodecType, U64Values, serialize_and_load_u64_values};
use std::alloc::{AllocError, Global};
use std::marker::Model;
use std::ops::Range;
use std::sync::ledger::Ledger;

/// Which rows have a value: in a list or in runs, and, where enough rows have one, also a bit for
/// each row. Contracts see the row count and the rows with a value.
pub struct OptionalIndex {
    held: HeldRows,
    bits: RankWords,
    num_rows: RowId,
}

impl Drop for OptionalIndex {
    fn drop(self) {
        let OptionalIndex {
            held: _,
            bits: _,
            num_rows: _,
        } = self;
    }
}

impl Model for OptionalIndex {
    ghost use Rattle.col_model.specs.Index.{RowSet};
    ghost use Rattle.col_index.specs.Held.{set_held};
    ghost use Rattle.col_index.specs.RankedRows.{AreBitsOf};

    ghost Value = { RowSet };

    ghost view = { λ i. set_held i.held };

    ghost invariant = { λ i. AreBitsOf (set_held i.held) i.num_rows
        i.bits.words.items i.bits.before.items };
}

impl OptionalIndex {
    /// The index of rows, which rise and stay below the count.
    pub fn for_test(
        alloc: Global,
        num_rows: RowId,
        row_ids: &[RowId],
    ) -> Result<OptionalIndex, ColumnarError>
        requires { AreRows (record { num_rows = num_rows; rows = row_ids.now }) }
        ensures ok { IfOk result (λ index.
            index ≡ record { num_rows = num_rows; rows = row_ids.now }) }
        ensures err { IfErr result (λ e. e ≡ refusals.OutOfMemory) }
    {
        let num_bytes = row_ids.len();
        OptionalIndex::from_rows(alloc, num_rows, load_numbers(alloc, row_ids)?, num_bytes)
    }

    /// The index with a list of its rows of so many bytes, if this rises and stays below the count.
    pub(crate) fn from_rows(
        alloc: Global,
        num_rows: RowId,
        rows: U64Values,
        num_bytes: usize,
    ) -> Result<OptionalIndex, ColumnarError>
        ensures { Decodes (λ index. index) result (set_by num_rows (list_of rows)) }
    {
        let ranks = Ranks::from_rows(alloc, num_rows, &rows, num_bytes)?;
        Ok(OptionalIndex {
            held: HeldRows::Listed(ListedRows::of(num_rows, rows, ranks.buckets)),
            bits: ranks.words,
            num_rows,
        })
    }

    /// The index of runs with these starts and lengths, if they are runs of so many rows.
    pub(crate) fn from_runs(
        alloc: Global,
        num_rows: RowId,
        starts: U64Values,
        lengths: U64Values,
    ) -> Result<OptionalIndex, ColumnarError>
        ensures { Decodes (λ index. index) result
            (runs_by num_rows (list_of starts) (list_of lengths)) }
    {
        let runs = RowRuns::from_lists(alloc, num_rows, starts, lengths)?;
        runs.rows_rise();
        let bits = runs.bits(alloc)?;
        Ok(OptionalIndex {
            held: HeldRows::InRuns(runs),
            bits,
            num_rows,
        })
    }

    /// The same index once more, which shares the bytes of its rows and has ranks of its own.
    pub fn try_clone(&self, alloc: Global) -> Result<OptionalIndex, AllocError>
        ensures { IfOk result (λ index. index ≡ self.now) }
    {
        let held = match &self.held {
            HeldRows::Listed(rows) => HeldRows::Listed(rows.try_clone(alloc)?),
            HeldRows::InRuns(runs) => HeldRows::InRuns(runs.try_clone(alloc)?),
        };
        Ok(OptionalIndex {
            held,
            bits: self.bits.try_clone(alloc)?,
            num_rows: self.num_rows,
        })
    }

    /// How many rows there are.
    #[inline(always)]
    pub fn num_docs(&self) -> RowId
        ensures { result ≡ self.now.num_rows }
    {
        self.num_rows
    }

    /// How many rows have a value.
    #[inline(always)]
    pub fn num_non_nulls(&self) -> RowId
        ensures { result ≡ length self.now.rows }
    {
        match &self.held {
            HeldRows::Listed(rows) => rows.num_non_nulls(),
            HeldRows::InRuns(runs) => runs.num_non_nulls(),
        }
    }

    /// How many rows with a value stand before a row, where each look at one of them, or at the
    /// start of a run, is a step: the rows or the starts are searched by halves, as `rank` searches
    /// a part of them. Clause `least` keeps a search from passing that counts none of its looks.
    pub fn rank_counted<L: Ledger>(&self, row_id: RowId, steps: &mut Steps<L>) -> RowId
        ensures rank { result ≡ rank self.now.rows row_id }
        ensures steps { 2 ^ (steps.new - steps.old) ≤ 2 * length self.now.rows + 2 }
        ensures least { length (runs_of self.now.rows) + 2 ≤ 2 * 2 ^ (steps.new - steps.old) }
    {
        match &self.held {
            HeldRows::Listed(rows) => rows.rank_counted(row_id, steps),
            HeldRows::InRuns(runs) => runs.rank_counted(row_id, steps),
        }
    }

    /// The rows rise and stay below the count.
    #[inline(always)]
    pub fn rows_rise(&self)
        ensures { AreRows self.now }
    {
        // That the rows are those of an index is known where a field is read.
        let _ = &self.held;
    }

    /// The first row with a value that isn't before a target.
    pub fn next_non_null_doc(&self, target: DocId) -> Option<DocId>
        ensures { result ≡ next_row self.now.rows target }
    {
        self.rows_rise();
        let rank = self.rank(target);
        if rank < self.num_non_nulls() {
            Some(self.select(rank))
        } else {
            None
        }
    }

    /// The rows with a value, ascending.
    pub fn iter_non_null_docs(&self) -> NonNullDocs<'_>
        ensures { result ≡ self.now.rows }
    {
        match &self.held {
            HeldRows::Listed(rows) => NonNullDocs::of_listed(rows),
            HeldRows::InRuns(runs) => NonNullDocs::of_runs(runs),
        }
    }

    /// Puts the row of each rank in its place.
    pub fn select_batch(&self, ranks: &mut [RowId])
        requires { AreBelow (length self.now.rows) ranks.old }
        ensures { map Some ranks.new ≡ map (slice_get self.now.rows) ranks.old }
    {
        match &self.held {
            HeldRows::Listed(rows) => select_all(&Walked { rows }, ranks),
            HeldRows::InRuns(runs) => select_all(&InRuns { runs }, ranks),
        }
    }

    /// A reader of rows by their ranks.
    pub fn select_cursor(&self) -> OptionalIndexSelectCursor<'_>
        ensures { result ≡ self.now.rows }
    {
        OptionalIndexSelectCursor::of(self)
    }
}

impl Set<RowId> for OptionalIndex {
    ghost use Rattle.std.specs.Prelude.{◌<◌, length, slice_get};
    ghost use Rattle.col_model.specs.Positions.{rank};
    ghost use Rattle.col_index.specs.Sets.{holds};

    ghost holds = { λ s row. holds s.rows row };

    ghost rank_of = { λ s row. rank s.rows row };

    ghost at_rank = { λ s k. slice_get s.rows k };

    ghost IsRank = { λ s k. k < length s.rows };

    #[inline(always)]
    fn contains(&self, row_id: RowId) -> bool {
        if self.bits.reaches(row_id) {
            return self.bits.holds(row_id);
        }
        self.held.far_contains(row_id)
    }

    // Whether there are bits is asked first, of all rows at once in a loop.
    #[inline(always)]
    fn rank(&self, row_id: RowId) -> RowId {
        if self.bits.words.is_empty() {
            return self.held.rank(row_id);
        }
        if self.bits.reaches(row_id) {
            return self.bits.rank(row_id);
        }
        self.held.far_rank(row_id)
    }

    #[inline(always)]
    fn rank_if_exists(&self, row_id: RowId) -> Option<RowId> {
        if self.bits.words.is_empty() {
            return self.held.rank_if_exists(row_id);
        }
        if self.bits.reaches(row_id) {
            if self.bits.holds(row_id) {
                return Some(self.bits.rank(row_id));
            }
            return None;
        }
        self.held.far_rank_if_exists(row_id)
    }

    #[inline(always)]
    fn select(&self, rank: RowId) -> RowId {
        match &self.held {
            HeldRows::Listed(rows) => rows.select(rank),
            HeldRows::InRuns(runs) => runs.select(rank),
        }
    }

    fn ranks_are_undone(&self) {
        self.rows_rise();
    }
}

impl OptionalIndex {
    ghost use Rattle.col_index.specs.RowsNear.{rows_near};
    ghost use Rattle.col_common.specs.Reading.{only_if};
    ghost use Rattle.col_index.specs.RunPlaces.{IsRunOf};

    /// How many rows before a row have a value, and whether it has one itself.
    #[inline(always)]
    pub(crate) fn rank_and_contains(&self, row_id: RowId) -> (RowId, bool)
        ensures rank { result.0 ≡ rank self.now.rows row_id }
        ensures held { result.1 ≡ holds self.now.rows row_id }
    {
        if self.bits.reaches(row_id) {
            return (self.bits.rank(row_id), self.bits.holds(row_id));
        }
        self.held.rank_and_contains(row_id)
    }

    /// The rank of a row that has a value, where most rows that are asked have a bit.
    #[inline(always)]
    pub(crate) fn rank_by_bits(&self, row_id: RowId) -> Option<RowId>
        ensures { result ≡ only_if (holds self.now.rows row_id) (rank self.now.rows row_id) }
    {
        if self.bits.reaches(row_id) {
            if self.bits.holds(row_id) {
                return Some(self.bits.rank(row_id));
            }
            return None;
        }
        self.held.far_rank_if_exists(row_id)
    }

    /// The row with a rank, by the run that the one before was found in.
    #[inline(always)]
    pub(crate) fn select_near(&self, near: &mut NumberedRun, rank: RowId) -> RowId
        requires rank { rank < length self.now.rows }
        requires near { IsRunOf self.now.rows near.old.run }
        ensures near { IsRunOf self.now.rows near.new.run }
        ensures row { slice_get self.now.rows rank ≡ Some result }
    {
        match &self.held {
            HeldRows::Listed(rows) => rows.select(rank),
            HeldRows::InRuns(runs) => runs.select_near(near, rank),
        }
    }

    /// The runs of the rows with a value, where the index has them in runs. They are a shorter way
    /// alone: an answer of none costs time, and promises nothing of the rows.
    pub fn runs(&self) -> Option<IndexRuns<'_>>
        ensures { IfSome result (λ runs. runs ≡ self.now) }
    {
        match &self.held {
            HeldRows::Listed(_) => None,
            HeldRows::InRuns(runs) => Some(IndexRuns::of(runs)),
        }
    }

    /// The positions of a row's values.
    #[inline(always)]
    pub(crate) fn range(&self, doc_id: DocId) -> Range<RowId>
        ensures start { result.start ≡ (index_range (set_counts self.now) doc_id).0 }
        ensures end { result.end ≡ (index_range (set_counts self.now) doc_id).1 }
    {
        self.rows_rise();
        if doc_id >= self.num_rows {
            return 0..0;
        }
        if !self.bits.reaches(doc_id) {
            return self.held.range(doc_id);
        }
        let rank = self.bits.rank(doc_id);
        if self.bits.holds(doc_id) {
            rank..rank + 1
        } else {
            rank..rank
        }
    }

    /// The positions of a row's values; 0..0 where it has none.
    #[inline(always)]
    pub(crate) fn range_if_any(&self, doc_id: DocId) -> Range<RowId>
        ensures start { result.start ≡ (range_if_any (set_counts self.now) doc_id).0 }
        ensures end { result.end ≡ (range_if_any (set_counts self.now) doc_id).1 }
    {
        self.rows_rise();
        // That rows are below a count of 32 bits is known of the count.
        let _num_docs = self.num_docs();
        match self.rank_by_bits(doc_id) {
            Some(rank) => rank..rank + 1,
            None => 0..0,
        }
    }

    /// The rows, to be ranked one behind another.
    #[inline(always)]
    pub(crate) fn rows_near(&self) -> RowsNear<'_>
        ensures { rows_near result ≡ self.now.rows }
    {
        match &self.held {
            HeldRows::Listed(_) if self.bits.reaches(0) => RowsNear::Ranked(self),
            HeldRows::Listed(rows) => RowsNear::Walked(rows),
            HeldRows::InRuns(runs) => RowsNear::InRuns(runs),
        }
    }

    /// The rows in their list or in their runs.
    pub(crate) fn held(&self) -> &HeldRows
        ensures { set_held result.now ≡ self.now }
    {
        &self.held
    }
}

/// Numbers as a list that is read in place.
pub(crate) fn load_numbers(alloc: Global, numbers: &[u32]) -> Result<U64Values, ColumnarError>
    requires { length numbers.now < 2 ^ 32 }
    ensures ok { IfOk result (λ values. list_of values ≡ numbers.now) }
    ensures err { IfErr result (λ e. e ≡ refusals.OutOfMemory) }
{
    serialize_and_load_u64_values(alloc, &numbers, &[CodecType::Bitpacked])
}
