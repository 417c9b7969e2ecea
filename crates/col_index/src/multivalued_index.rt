//! Rows that have any number of values.
ghost use Rattle.std.specs.Prelude.{◌≡◌, ◌+◌, ◌^◌, ◌==◌, not, true, false, nat_le, length, sum, slice_index};
ghost use Rattle.std.specs.Prelude.{option_map, slice_get};
ghost use Rattle.std.specs.Prelude.{IfOk, IfErr, IfSome};
ghost use Rattle.std.specs.List.{list_all};
ghost use Rattle.col_common.specs.declared.error.ColumnarError.TheVariants as refusals;
ghost use Rattle.col_common.specs.Ascending.{is_rising, differences, AreBelow};
ghost use Rattle.col_model.specs.Positions.{start_of, index_range, rows_with_value, next_row, starts_of, rows_at};
ghost use Rattle.col_numbers.specs.Readers.{list_of};
ghost use Rattle.col_index.specs.Offsets.{range_if_any, AreOldOffsets, without_repeats, row_positions};
ghost use Rattle.col_index.specs.Appending.{PushesValues};
ghost use Rattle.col_index.specs.Walked.{IsHint32};

use crate::multivalued_index_v1::MultiValueIndexV1;
use crate::multivalued_index_v2::MultiValueIndexV2;
use crate::non_null_docs::NonNullDocs;
use col_common::{ColumnarError, DocId, RowId};
use col_numbers::U64Values;
use col_values::ColumnValues;
use std::alloc::{AllocError, Global};
use std::fmt;
use std::ops::Range;

/// How many values each row has.
#[derive(Drop)]
pub enum MultiValueIndex {
    MultiValueIndexV1(MultiValueIndexV1),
    MultiValueIndexV2(MultiValueIndexV2),
}

impl MultiValueIndex {
    ghost use Rattle.col_index.specs.MultiValues.{value_counts_of, offsets_kept, has_old_offsets};

    /// The index with one more start offset than rows, from 0 on, which never fall.
    pub fn for_test(
        alloc: Global,
        start_offsets: &[RowId],
    ) -> Result<MultiValueIndex, ColumnarError>
        requires { AreOldOffsets start_offsets.now }
        ensures ok { IfOk result (λ index. value_counts_of index ≡ differences start_offsets.now) }
        ensures err { IfErr result (λ e. e ≡ refusals.OutOfMemory) }
        ensures version { IfOk result (λ index. has_old_offsets index ≡ false) }
    {
        Ok(MultiValueIndex::MultiValueIndexV2(MultiValueIndexV2::for_test(alloc, start_offsets)?))
    }

    /// The same index once more, which shares its bytes and has ranks of its own.
    pub fn try_clone(&self, alloc: Global) -> Result<MultiValueIndex, AllocError>
        ensures { IfOk result (λ index. index ≡ self.now) }
    {
        match self {
            MultiValueIndex::MultiValueIndexV1(index) => {
                Ok(MultiValueIndex::MultiValueIndexV1(index.try_clone(alloc)?))
            }
            MultiValueIndex::MultiValueIndexV2(index) => {
                Ok(MultiValueIndex::MultiValueIndexV2(index.try_clone(alloc)?))
            }
        }
    }

    /// Where the values of rows start, and behind the last where they end. In version 2 these are
    /// the rows with a value; in version 1 all rows, so that a start may come more than once.
    pub fn get_start_index_column(&self) -> &U64Values
        ensures counts { without_repeats (list_of result.now)
            ≡ starts_of (value_counts_of self.now) }
        ensures fits { AreBelow (2 ^ 32) (list_of result.now) }
        ensures offsets { list_of result.now ≡ offsets_kept self.now }
    {
        match self {
            MultiValueIndex::MultiValueIndexV1(index) => index.start_index_column(),
            MultiValueIndex::MultiValueIndexV2(index) => index.start_index_column(),
        }
    }

    /// The positions of a row's values; 0..0 for a number that is no row.
    #[inline(always)]
    pub fn range(&self, doc_id: DocId) -> Range<RowId>
        ensures start { result.start ≡ (index_range (value_counts_of self.now) doc_id).0 }
        ensures end { result.end ≡ (index_range (value_counts_of self.now) doc_id).1 }
    {
        match self {
            MultiValueIndex::MultiValueIndexV1(index) => index.range(doc_id),
            MultiValueIndex::MultiValueIndexV2(index) => index.range(doc_id),
        }
    }

    /// The positions of a row's values; 0..0 where it has none.
    #[inline(always)]
    pub fn range_if_any(&self, doc_id: DocId) -> Range<RowId>
        ensures start { result.start ≡ (range_if_any (value_counts_of self.now) doc_id).0 }
        ensures end { result.end ≡ (range_if_any (value_counts_of self.now) doc_id).1 }
    {
        match self {
            MultiValueIndex::MultiValueIndexV1(index) => index.range_if_any(doc_id),
            MultiValueIndex::MultiValueIndexV2(index) => index.range_if_any(doc_id),
        }
    }

    /// How many values stand before a row.
    pub(crate) fn start_of(&self, doc_id: DocId) -> RowId
        ensures { result ≡ start_of (value_counts_of self.now) doc_id }
    {
        match self {
            MultiValueIndex::MultiValueIndexV1(index) => index.start_of(doc_id),
            MultiValueIndex::MultiValueIndexV2(index) => index.start_of(doc_id),
        }
    }

    /// How many rows there are.
    pub fn num_docs(&self) -> u32
        ensures { result ≡ length (value_counts_of self.now) }
    {
        match self {
            MultiValueIndex::MultiValueIndexV1(index) => index.num_docs(),
            MultiValueIndex::MultiValueIndexV2(index) => index.num_docs(),
        }
    }

    /// Whether a row has a value.
    pub fn has_value(&self, doc_id: DocId) -> bool
        ensures { result ≡ not (slice_index (value_counts_of self.now) doc_id == 0) }
    {
        match self {
            MultiValueIndex::MultiValueIndexV1(index) => index.has_value(doc_id),
            MultiValueIndex::MultiValueIndexV2(index) => index.has_value(doc_id),
        }
    }

    /// The first row with a value that isn't before a target.
    pub fn next_non_null_doc(&self, target: DocId) -> Option<DocId>
        ensures { result ≡ next_row (rows_with_value (value_counts_of self.now)) target }
    {
        match self {
            MultiValueIndex::MultiValueIndexV1(index) => index.next_non_null_doc(target),
            MultiValueIndex::MultiValueIndexV2(index) => index.next_non_null_doc(target),
        }
    }

    /// Where the values of the row with a rank end, and beside it a number from which on the row of
    /// the next rank can be looked for. Version 2 looks for no row, and answers 0.
    #[inline(always)]
    pub fn next_end(&self, place: u64, from: DocId) -> Option<(DocId, RowId)>
        requires { IsHint32 (rows_with_value (value_counts_of self.now)) from place }
        ensures end { option_map (λ r. r.1) result
            ≡ slice_get (starts_of (value_counts_of self.now)) (place + 1) }
        ensures hint { IfSome result (λ r.
            IsHint32 (rows_with_value (value_counts_of self.now)) r.0 (place + 1)) }
    {
        match self {
            MultiValueIndex::MultiValueIndexV1(index) => index.end_at(place, from),
            MultiValueIndex::MultiValueIndexV2(index) => {
                let end = index.end_at(place)?;
                Some((0, end))
            }
        }
    }

    /// The rows with a value, ascending.
    pub fn iter_non_null_docs(&self) -> NonNullDocs<'_>
        ensures { result ≡ rows_with_value (value_counts_of self.now) }
    {
        match self {
            MultiValueIndex::MultiValueIndexV1(index) => index.iter_non_null_docs(),
            MultiValueIndex::MultiValueIndexV2(index) => index.iter_non_null_docs(),
        }
    }

    /// Appends each document once for each of its values, and these values' positions, as far as
    /// memory reaches.
    pub(crate) fn push_positions(
        &self,
        docs: &[DocId],
        docs_out: &mut Vec<DocId>,
        rows_out: &mut Vec<RowId>,
    ) -> Result<(), AllocError>
        ensures { PushesValues (row_positions (value_counts_of self.now) docs.now)
            docs_out.old.items docs_out.new.items rows_out.old.items rows_out.new.items result }
    {
        match self {
            MultiValueIndex::MultiValueIndexV1(index) => {
                index.push_positions(docs, docs_out, rows_out)
            }
            MultiValueIndex::MultiValueIndexV2(index) => {
                index.push_positions(docs, docs_out, rows_out)
            }
        }
    }

    /// Puts in the place of ascending positions the rows that have them, each once. No position is
    /// before the values of the start.
    pub fn select_batch_in_place(&self, doc_id_start: DocId, ranks: &mut Vec<RowId>)
        requires rising { is_rising ranks.old.items ≡ true }
        requires below { AreBelow (sum (value_counts_of self.now)) ranks.old.items }
        requires start { list_all (λ p. nat_le (start_of (value_counts_of self.now) doc_id_start) p)
            ranks.old.items ≡ true }
        ensures { ranks.new.items ≡ rows_at (value_counts_of self.now) ranks.old.items }
    {
        match self {
            MultiValueIndex::MultiValueIndexV1(index) => {
                index.select_batch_in_place(doc_id_start, ranks)
            }
            MultiValueIndex::MultiValueIndexV2(index) => {
                index.select_batch_in_place(doc_id_start, ranks)
            }
        }
    }
}

impl fmt::Debug for MultiValueIndex {
    fn fmt<W: fmt::Write>(&self, f: &mut fmt::Formatter<W>) -> fmt::Result {
        f.debug_struct("MultiValuedIndex")
            .field("num_rows", &self.get_start_index_column().num_vals())
            .finish_non_exhaustive()
    }
}
