//! Rows with a value, in a list.
ghost use Rattle.std.specs.Prelude.{◌≡◌, ◌^◌, ◌<◌, ◌≤◌, ◌+◌, ◌-◌, ◌*◌, length, slice_get, Some, IfOk};
ghost use Rattle.col_common.specs.Reading.{only_if};
ghost use Rattle.col_model.specs.Index.{set_counts};
ghost use Rattle.col_model.specs.Positions.{rank, index_range};
ghost use Rattle.col_numbers.specs.Readers.{list_of};
ghost use Rattle.col_index.specs.RankedRows.{AreRankedRows};
ghost use Rattle.col_index.specs.Sets.{AreRows, holds};

use crate::counted_rows::CountedRows;
use crate::rank_buckets::RankBuckets;
use crate::search::{Place, is_listed_at, narrow_counted};
use col_common::{DocId, RowId, Steps};
use col_numbers::U64Values;
use col_values::ColumnValues;
use std::alloc::{AllocError, Global};
use std::marker::Model;
use std::ops::Range;
use std::sync::ledger::Ledger;

/// The rows that have a value, in a list, with parts that rank them. Contracts see the row count
/// and these rows.
#[derive(Drop)]
pub(crate) struct ListedRows {
    num_rows: RowId,
    rows: U64Values,
    buckets: RankBuckets,
}

impl Model for ListedRows {
    ghost use Rattle.col_model.specs.Index.{RowSet};
    ghost use Rattle.col_numbers.specs.Readers.{list_of};
    ghost use Rattle.col_index.specs.RankedRows.{AreRankedRows};

    ghost Value = { RowSet };

    ghost view = { λ i. record { num_rows = i.num_rows; rows = list_of i.rows } };

    ghost invariant = { λ i.
        AreRankedRows (record { num_rows = i.num_rows; rows = list_of i.rows }) i.buckets };
}

impl ListedRows {
    /// The rows of a list with their parts.
    pub(crate) fn of(num_rows: RowId, rows: U64Values, buckets: RankBuckets) -> ListedRows
        requires { AreRankedRows (record { num_rows = num_rows; rows = list_of rows }) buckets }
        ensures { result ≡ record { num_rows = num_rows; rows = list_of rows } }
    {
        ListedRows {
            num_rows,
            rows,
            buckets,
        }
    }

    /// The same rows once more, which share their bytes and have parts of their own.
    pub(crate) fn try_clone(&self, alloc: Global) -> Result<ListedRows, AllocError>
        ensures { IfOk result (λ rows. rows ≡ self.now) }
    {
        Ok(ListedRows {
            num_rows: self.num_rows,
            rows: self.rows.try_clone(alloc)?,
            buckets: self.buckets.try_clone(alloc)?,
        })
    }

    /// How many rows there are.
    #[inline(always)]
    pub(crate) fn num_docs(&self) -> RowId
        ensures { result ≡ self.now.num_rows }
    {
        self.num_rows
    }

    /// How many rows have a value.
    #[inline(always)]
    pub(crate) fn num_non_nulls(&self) -> RowId
        ensures { result ≡ length self.now.rows }
    {
        self.rows.num_vals()
    }

    /// How many rows with a value stand before a row, where each look at one of them is a step: the
    /// rows are searched by halves, as `rank` searches a part of them. Clause `least` keeps a
    /// search from passing that counts none of its looks.
    pub(crate) fn rank_counted<L: Ledger>(&self, row_id: RowId, steps: &mut Steps<L>) -> RowId
        ensures rank { result ≡ rank self.now.rows row_id }
        ensures steps { 2 ^ (steps.new - steps.old) ≤ 2 * length self.now.rows + 2 }
        ensures least { length self.now.rows + 2 ≤ 2 * 2 ^ (steps.new - steps.old) }
    {
        self.rows_rise();
        let rows = CountedRows::new(&self.rows);
        narrow_counted(&rows, 0, self.rows.num_vals(), u64::from(row_id), steps)
    }

    /// The rows rise and stay below the count.
    #[inline(always)]
    pub(crate) fn rows_rise(&self)
        ensures { AreRows self.now }
    {
        // That the rows are those of an index is known where a field is read.
        let _ = &self.rows;
    }

    /// Whether a row has a value.
    #[inline(always)]
    pub(crate) fn contains(&self, row_id: RowId) -> bool
        ensures { result ≡ holds self.now.rows row_id }
    {
        self.rank_if_exists(row_id).is_some()
    }

    /// How many rows before a row have a value.
    #[inline(never)]
    pub(crate) fn rank(&self, row_id: RowId) -> RowId
        ensures { result ≡ rank self.now.rows row_id }
    {
        if row_id >= self.num_rows {
            return self.rows.num_vals();
        }
        self.buckets.rank(self.num_rows, &self.rows, row_id)
    }

    /// How many rows before a row have a value, and whether it has one itself.
    #[inline(always)]
    pub(crate) fn rank_and_contains(&self, row_id: RowId) -> (RowId, bool)
        ensures rank { result.0 ≡ rank self.now.rows row_id }
        ensures held { result.1 ≡ holds self.now.rows row_id }
    {
        let rank = self.rank(row_id);
        (rank, self.holds_at(rank, row_id))
    }

    /// The rank of a row that has a value.
    #[inline(never)]
    pub(crate) fn rank_if_exists(&self, row_id: RowId) -> Option<RowId>
        ensures { result ≡ only_if (holds self.now.rows row_id) (rank self.now.rows row_id) }
    {
        if row_id >= self.num_rows {
            return None;
        }
        self.buckets
            .rank_if_exists(self.num_rows, &self.rows, row_id)
    }

    /// The positions of a row's values.
    #[inline(always)]
    pub(crate) fn range(&self, row_id: RowId) -> Range<RowId>
        ensures start { result.start ≡ (index_range (set_counts self.now) row_id).0 }
        ensures end { result.end ≡ (index_range (set_counts self.now) row_id).1 }
    {
        self.rows_rise();
        if row_id >= self.num_docs() {
            return 0..0;
        }
        let rank = self.rank(row_id);
        if self.holds_at(rank, row_id) {
            rank..rank + 1
        } else {
            rank..rank
        }
    }

    /// The row with a rank.
    #[inline(always)]
    pub(crate) fn select(&self, rank: RowId) -> RowId
        requires { rank < length self.now.rows }
        ensures { slice_get self.now.rows rank ≡ Some result }
    {
        // That rows are below a count of 32 bits is known of the count.
        let _num_rows = self.num_rows;
        self.rows.get_val(rank) as RowId
    }

    /// The row with a rank, if there are more rows with a value than that.
    #[inline(always)]
    pub(crate) fn row_at(&self, rank: u64) -> Option<DocId>
        ensures { result ≡ slice_get self.now.rows rank }
    {
        if rank >= u64::from(self.num_non_nulls()) {
            return None;
        }
        Some(self.select(rank as u32))
    }

    // Whether the row with a rank has a value.
    #[inline(always)]
    fn holds_at(&self, at: RowId, row_id: RowId) -> bool
        requires { at ≡ rank self.now.rows row_id }
        ensures { result ≡ holds self.now.rows row_id }
    {
        is_listed_at(&self.rows, at, row_id)
    }
}

impl ListedRows {
    ghost use Rattle.col_index.specs.Places.{IsPlaceOfTarget};

    /// The place of row 0.
    #[inline(always)]
    pub(crate) fn first_place(&self) -> Place
        ensures place { IsPlaceOfTarget self.now.rows result }
        ensures target { result.target ≡ 0 }
    {
        Place::first(&self.rows)
    }

    // The place of a row; in few steps where it isn't far behind another place.
    #[inline(always)]
    fn seek(&self, place: Place, doc_id: DocId) -> Place
        requires { IsPlaceOfTarget self.now.rows place }
        ensures place { IsPlaceOfTarget self.now.rows result }
        ensures target { result.target ≡ doc_id }
    {
        match place.near(&self.rows, u64::from(doc_id)) {
            Some(near) => near,
            None => Place::of(&self.rows, self.rank(doc_id), u64::from(doc_id)),
        }
    }

    // Whether the row of a place has a value.
    #[inline]
    fn is_at(&self, place: Place) -> bool
        requires place { IsPlaceOfTarget self.now.rows place }
        requires row { place.target < 2 ^ 32 }
        ensures { result ≡ holds self.now.rows place.target }
    {
        self.rows_rise();
        place.next == place.target
    }

    /// The rank of a row that has a value, by a walk: in few steps where the row isn't far behind
    /// the place.
    #[inline(always)]
    pub(crate) fn walked_rank(&self, place: &mut Place, doc_id: DocId) -> Option<RowId>
        requires { IsPlaceOfTarget self.now.rows place.old }
        ensures place { IsPlaceOfTarget self.now.rows place.new }
        ensures rank { result ≡ only_if (holds self.now.rows doc_id) (rank self.now.rows doc_id) }
    {
        let next = self.seek(*place, doc_id);
        *place = next;
        if self.is_at(next) {
            Some(next.at)
        } else {
            None
        }
    }
}
