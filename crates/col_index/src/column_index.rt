//! How many values each row of a column has.
ghost use Rattle.std.specs.Prelude.{◌≡◌, ◌<◌, ◌-◌, ◌^◌, ◌==◌, true, not, nat_le, max, IfOk, IfErr};
ghost use Rattle.std.specs.List.{list_all};
ghost use Rattle.col_common.specs.Ascending.{is_rising};
ghost use Rattle.col_common.specs.declared.error.ColumnarError.TheVariants as refusals;
ghost use Rattle.col_model.specs.Index.{full_shape};
ghost use Rattle.col_model.specs.Positions.{count_in, start_in, positions_in, rows_in};
ghost use Rattle.col_index.specs.Versions.{cardinality_of};
ghost use Rattle.col_index.specs.Appending.{AppendsValues, PushesValues};
ghost use Rattle.col_index.specs.Offsets.{positions_if_any, cardinality_in, positions_of_rows, AreInside};

use crate::cardinality::Cardinality;
use crate::multivalued_index::MultiValueIndex;
use crate::optional_index::OptionalIndex;
use col_common::{ColumnarError, DocId, RowId};
use std::alloc::{AllocError, Global};
use std::ops::Range;

/// How many values each row of a column has.
#[derive(Debug, Drop)]
pub enum ColumnIndex {
    /// No row has a value.
    Empty { num_docs: u32 },
    /// Each row has one, however many rows there are: a row is the position of its value.
    Full,
    Optional(OptionalIndex),
    Multivalued(MultiValueIndex),
}

impl From<OptionalIndex> for ColumnIndex {
    ghost use Rattle.col_index.specs.declared.column_index.ColumnIndex.TheVariants as variants;

    fn from(optional_index: OptionalIndex) -> ColumnIndex
        ensures { result ≡ variants.Optional optional_index }
    {
        ColumnIndex::Optional(optional_index)
    }
}

impl From<MultiValueIndex> for ColumnIndex {
    ghost use Rattle.col_index.specs.declared.column_index.ColumnIndex.TheVariants as variants;

    fn from(multi_value_index: MultiValueIndex) -> ColumnIndex
        ensures { result ≡ variants.Multivalued multi_value_index }
    {
        ColumnIndex::Multivalued(multi_value_index)
    }
}

impl ColumnIndex {
    ghost use Rattle.col_index.specs.Indexes.{shape_of};

    /// The same index once more, which shares its bytes and has ranks of its own.
    pub fn try_clone(&self, alloc: Global) -> Result<ColumnIndex, ColumnarError>
        ensures ok { IfOk result (λ index. index ≡ self.now) }
        ensures err { IfErr result (λ e. e ≡ refusals.OutOfMemory) }
    {
        match self {
            ColumnIndex::Empty { num_docs } => Ok(ColumnIndex::Empty {
                num_docs: *num_docs,
            }),
            ColumnIndex::Full => Ok(ColumnIndex::Full),
            ColumnIndex::Optional(index) => Ok(ColumnIndex::Optional(index.try_clone(alloc)?)),
            ColumnIndex::Multivalued(index) => {
                Ok(ColumnIndex::Multivalued(index.try_clone(alloc)?))
            }
        }
    }

    /// The cardinality; an index without rows is Full.
    pub fn get_cardinality(&self) -> Cardinality
        ensures { cardinality_of result ≡ cardinality_in (shape_of self.now) }
    {
        match self {
            ColumnIndex::Empty { num_docs: 0 } | ColumnIndex::Full => Cardinality::Full,
            ColumnIndex::Empty { .. } | ColumnIndex::Optional(_) => Cardinality::Optional,
            ColumnIndex::Multivalued(_) => Cardinality::Multivalued,
        }
    }

    /// Whether a row has a value.
    pub fn has_value(&self, doc_id: DocId) -> bool
        ensures { result ≡ not (count_in (shape_of self.now) doc_id == 0) }
    {
        match self {
            ColumnIndex::Empty { .. } => false,
            ColumnIndex::Full => true,
            ColumnIndex::Optional(index) => index.has_value(doc_id),
            ColumnIndex::Multivalued(index) => index.has_value(doc_id),
        }
    }

    /// The positions of a row's values.
    #[inline(always)]
    pub fn value_row_ids(&self, doc_id: DocId) -> Range<RowId>
        requires { shape_of self.now ≡ full_shape → doc_id < 2 ^ 32 - 1 }
        ensures start { result.start ≡ (positions_in (shape_of self.now) doc_id).0 }
        ensures end { result.end ≡ (positions_in (shape_of self.now) doc_id).1 }
    {
        match self {
            ColumnIndex::Empty { .. } => 0..0,
            ColumnIndex::Full => doc_id..doc_id + 1,
            ColumnIndex::Optional(index) => index.range(doc_id),
            ColumnIndex::Multivalued(index) => index.range(doc_id),
        }
    }

    /// The positions of a row's values; 0..0 where it has none.
    #[inline(always)]
    pub fn value_row_ids_if_any(&self, doc_id: DocId) -> Range<RowId>
        requires { shape_of self.now ≡ full_shape → doc_id < 2 ^ 32 - 1 }
        ensures start { result.start ≡ (positions_if_any (shape_of self.now) doc_id).0 }
        ensures end { result.end ≡ (positions_if_any (shape_of self.now) doc_id).1 }
    {
        match self {
            ColumnIndex::Empty { .. } => 0..0,
            ColumnIndex::Full => doc_id..doc_id + 1,
            ColumnIndex::Optional(index) => index.range_if_any(doc_id),
            ColumnIndex::Multivalued(index) => index.range_if_any(doc_id),
        }
    }

    /// Appends each document once for each of its values, and these values' positions. Documents
    /// that ascend are walked.
    pub fn docids_to_rowids(
        &self,
        doc_ids: &[DocId],
        doc_ids_out: &mut Vec<DocId>,
        row_ids: &mut Vec<RowId>,
    ) -> Result<(), ColumnarError>
        ensures ok { AppendsValues (positions_of_rows (shape_of self.now) doc_ids.now)
            doc_ids_out.old.items doc_ids_out.new.items row_ids.old.items row_ids.new.items result }
        ensures err { IfErr result (λ e. e ≡ refusals.OutOfMemory) }
    {
        let num_docs = doc_ids_out.len();
        let num_rows = row_ids.len();
        let result = self.push_positions(doc_ids, doc_ids_out, row_ids);
        if result.is_err() {
            doc_ids_out.truncate(num_docs);
            row_ids.truncate(num_rows);
        }
        Ok(result?)
    }

    // The same, as far as memory reaches.
    fn push_positions(
        &self,
        doc_ids: &[DocId],
        doc_ids_out: &mut Vec<DocId>,
        row_ids: &mut Vec<RowId>,
    ) -> Result<(), AllocError>
        ensures { PushesValues (positions_of_rows (shape_of self.now) doc_ids.now)
            doc_ids_out.old.items doc_ids_out.new.items row_ids.old.items row_ids.new.items result }
    {
        match self {
            ColumnIndex::Empty { .. } => Ok(()),
            ColumnIndex::Full => {
                doc_ids_out.extend_from_slice(doc_ids)?;
                row_ids.extend_from_slice(doc_ids)?;
                Ok(())
            }
            ColumnIndex::Optional(index) => index.push_positions(doc_ids, doc_ids_out, row_ids),
            ColumnIndex::Multivalued(index) => index.push_positions(doc_ids, doc_ids_out, row_ids),
        }
    }

    /// The positions of the values of a range of rows; one that ends before its start holds none.
    pub fn docid_range_to_rowids(&self, doc_id_range: Range<DocId>) -> Range<RowId>
        ensures start { result.start ≡ start_in (shape_of self.now) doc_id_range.start }
        ensures end { result.end
            ≡ start_in (shape_of self.now) (max doc_id_range.start doc_id_range.end) }
    {
        let end = doc_id_range.end.max(doc_id_range.start);
        self.start_of(doc_id_range.start)..self.start_of(end)
    }

    // How many values stand before a row.
    fn start_of(&self, doc_id: DocId) -> RowId
        ensures { result ≡ start_in (shape_of self.now) doc_id }
    {
        match self {
            ColumnIndex::Empty { .. } => 0,
            ColumnIndex::Full => doc_id,
            ColumnIndex::Optional(index) => index.start_of(doc_id),
            ColumnIndex::Multivalued(index) => index.start_of(doc_id),
        }
    }

    /// Puts in the place of ascending positions the rows that have them, each once. No position is
    /// before the values of the start.
    pub fn select_batch_in_place(&self, doc_id_start: DocId, rank_ids: &mut Vec<RowId>)
        requires rising { is_rising rank_ids.old.items ≡ true }
        requires inside { AreInside (shape_of self.now) rank_ids.old.items }
        requires start { list_all (λ p. nat_le (start_in (shape_of self.now) doc_id_start) p)
            rank_ids.old.items ≡ true }
        ensures { rank_ids.new.items ≡ rows_in (shape_of self.now) rank_ids.old.items }
    {
        match self {
            ColumnIndex::Empty { .. } | ColumnIndex::Full => {}
            ColumnIndex::Optional(index) => index.select_batch_in_place(rank_ids),
            ColumnIndex::Multivalued(index) => index.select_batch_in_place(doc_id_start, rank_ids),
        }
    }
}
