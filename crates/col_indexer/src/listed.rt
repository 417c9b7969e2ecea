//! Indexes whose lists are given.
ghost use Rattle.std.specs.Prelude.{◌≡◌};
ghost use Rattle.col_indexer.specs.OffsetViews.{start_offsets_of};
ghost use Rattle.col_indexer.specs.RowViews.{rows_of};
ghost use Rattle.col_indexer.specs.Spelling.{offsets_by_rows};
ghost use Rattle.col_indexer.specs.Written.{index_of, row_offsets_of};

use crate::serialize::{
    SerializableColumnIndex, SerializableMultivalueIndex, SerializableOptionalIndex,
};
use crate::{RowIds, StartOffsets};
use col_common::RowId;
use col_index::Cardinality;

impl<'a> SerializableMultivalueIndex<'a> {
    /// The index of rows with a value, of so many rows, and their start offsets.
    pub(crate) fn from_lists(
        num_rows: RowId,
        rows: RowIds<'a>,
        starts: StartOffsets<'a>,
    ) -> SerializableMultivalueIndex<'a>
        ensures { row_offsets_of result
            ≡ offsets_by_rows num_rows (rows_of rows.entry) (start_offsets_of starts.entry) }
    {
        SerializableMultivalueIndex {
            doc_ids_with_values: SerializableOptionalIndex {
                non_null_row_ids: rows,
                num_rows,
            },
            start_offsets: starts,
        }
    }
}

impl<'a> SerializableColumnIndex<'a> {
    ghost use Rattle.col_indexer.specs.Written.{index_by, HasLists};

    /// The index of a cardinality, of so many rows, with those of the lists that it has.
    pub fn from_lists(
        cardinality: Cardinality,
        num_rows: RowId,
        rows: RowIds<'a>,
        starts: StartOffsets<'a>,
    ) -> SerializableColumnIndex<'a>
        ensures { index_of result
            ≡ index_by cardinality num_rows (rows_of rows.entry) (start_offsets_of starts.entry) }
    {
        match cardinality {
            Cardinality::Full => SerializableColumnIndex::Full,
            Cardinality::Optional => SerializableColumnIndex::Optional(SerializableOptionalIndex {
                non_null_row_ids: rows,
                num_rows,
            }),
            Cardinality::Multivalued => SerializableColumnIndex::Multivalued(
                SerializableMultivalueIndex::from_lists(num_rows, rows, starts),
            ),
        }
    }

    /// The same index by its lists, wherever they stand.
    pub fn with_lists<'b>(
        &self,
        rows: RowIds<'b>,
        starts: StartOffsets<'b>,
    ) -> SerializableColumnIndex<'b>
        requires { HasLists (index_of self.now) (rows_of rows) (start_offsets_of starts) }
        ensures { index_of result ≡ index_of self.now }
    {
        match self {
            SerializableColumnIndex::Full => SerializableColumnIndex::Full,
            SerializableColumnIndex::Optional(index) => {
                let cardinality = Cardinality::Optional;
                SerializableColumnIndex::from_lists(cardinality, index.num_rows, rows, starts)
            }
            SerializableColumnIndex::Multivalued(index) => {
                let num_rows = index.doc_ids_with_values.num_rows;
                let cardinality = Cardinality::Multivalued;
                SerializableColumnIndex::from_lists(cardinality, num_rows, rows, starts)
            }
        }
    }
}
