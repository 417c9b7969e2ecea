//! Indexes of rows, on their way into a column.
ghost use Rattle.std.specs.Prelude.{◌≡◌, ◌<◌, ◌^◌, true, false, sum, length, IfOk};
ghost use Rattle.col_common.specs.Ascending.{are_below, is_rising};
ghost use Rattle.col_column.specs.Spelling as spelled;
ghost use Rattle.col_column.specs.IndexerWritten.{index_of};
ghost use Rattle.col_writer_rows.specs.Counted.{counts_of_rows, CountsRows};

use crate::DocList;
use crate::doc_rows::rows_of_docs;
use crate::row_counts::{row_starts, tightest_cardinality};
use col_column::{Cardinality, RowIds, SerializableColumnIndex, StartOffsets};
use col_common::RowId;
use std::alloc::{AllocError, Global};
use std::marker::Model;

/// An index that has its lists. Contracts see the index.
#[derive(Drop)]
pub(crate) struct RowIndex {
    cardinality: Cardinality,
    num_rows: RowId,
    rows: Vec<RowId>,
    starts: Vec<RowId>,
}

impl Model for RowIndex {
    ghost use Rattle.col_column.specs.Spelling.{Index};
    ghost use Rattle.col_column.specs.IndexerWritten.{index_by};

    ghost Value = { Index };

    ghost view = { λ i. index_by i.cardinality i.num_rows i.rows.items i.starts.items };
}

impl RowIndex {
    /// The index of documents that never fall.
    pub(crate) fn of_docs(
        alloc: Global,
        docs: &DocList,
        num_rows: RowId,
    ) -> Result<RowIndex, AllocError>
        requires below { are_below num_rows docs.now ≡ true }
        requires few { length docs.now < 2 ^ 32 }
        ensures { IfOk result (λ i. CountsRows (counts_of_rows num_rows docs.now) i) }
    {
        docs.never_fall();
        if !docs.is_rising() {
            return RowIndex::of_repeated(alloc, docs, num_rows);
        }
        if docs.len() == u64::from(num_rows) {
            return Ok(RowIndex::full(alloc, num_rows));
        }
        RowIndex::of_rows(alloc, docs, num_rows)
    }

    /// The index of rows with so many values each.
    pub(crate) fn of_counts(alloc: Global, counts: &[u32]) -> Result<RowIndex, AllocError>
        requires rows { length counts.now < 2 ^ 32 }
        requires values { sum counts.now < 2 ^ 32 }
        ensures { IfOk result (λ i. CountsRows counts.now i) }
    {
        let num_rows = counts.len() as RowId;
        let cardinality = tightest_cardinality(counts);
        if let Cardinality::Full = cardinality {
            return Ok(RowIndex::full(alloc, num_rows));
        }
        let (rows, starts) = row_starts(alloc, counts)?;
        Ok(RowIndex {
            cardinality,
            num_rows,
            rows,
            starts,
        })
    }

    // The index of rows that have one value each.
    fn full(alloc: Global, num_rows: RowId) -> RowIndex
        ensures { result ≡ spelled.full_index }
    {
        RowIndex {
            cardinality: Cardinality::Full,
            num_rows,
            rows: Vec::new(alloc),
            starts: Vec::new(alloc),
        }
    }

    // The index of documents that are rows with one value each.
    fn of_rows(alloc: Global, docs: &DocList, num_rows: RowId) -> Result<RowIndex, AllocError>
        ensures { IfOk result (λ i.
            i ≡ spelled.optional_index (record { num_rows = num_rows; rows = docs.now })) }
    {
        let rows = docs.to_vec(alloc)?;
        Ok(RowIndex {
            cardinality: Cardinality::Optional,
            num_rows,
            rows,
            starts: Vec::new(alloc),
        })
    }

    // The index of documents of which one is there twice.
    fn of_repeated(alloc: Global, docs: &DocList, num_rows: RowId) -> Result<RowIndex, AllocError>
        requires below { are_below num_rows docs.now ≡ true }
        requires few { length docs.now < 2 ^ 32 }
        requires repeated { is_rising docs.now ≡ false }
        ensures { IfOk result (λ i. CountsRows (counts_of_rows num_rows docs.now) i) }
    {
        docs.never_fall();
        let (rows, starts) = rows_of_docs(alloc, docs, num_rows)?;
        Ok(RowIndex {
            cardinality: Cardinality::Multivalued,
            num_rows,
            rows,
            starts,
        })
    }

    /// The same for a call that writes it.
    pub(crate) fn as_serializable(&self) -> SerializableColumnIndex<'_>
        ensures { index_of result ≡ self.now }
    {
        SerializableColumnIndex::from_lists(
            self.cardinality,
            self.num_rows,
            RowIds::Slice(&self.rows),
            StartOffsets::Slice(&self.starts),
        )
    }
}
