//! Optional indexes by how many values each row has.
ghost use Rattle.std.specs.Prelude.{◌≡◌, ◌==◌, not, true, sum, slice_index};
ghost use Rattle.col_common.specs.Ascending.{is_rising, are_below};
ghost use Rattle.col_model.specs.Index.{set_counts, optional_shape};
ghost use Rattle.col_model.specs.Positions.{start_of, rows_at};
ghost use Rattle.col_index.specs.Offsets.{positions_of_rows};
ghost use Rattle.col_index.specs.Appending.{PushesValues};

use crate::optional_index::OptionalIndex;
use crate::set::Set;
use col_common::{DocId, RowId};
use std::alloc::AllocError;
use std::fmt;

impl OptionalIndex {
    /// How many values stand before a row.
    pub(crate) fn start_of(&self, doc_id: DocId) -> RowId
        ensures { result ≡ start_of (set_counts self.now) doc_id }
    {
        self.rows_rise();
        self.rank(doc_id)
    }

    /// Whether a row has a value.
    pub(crate) fn has_value(&self, doc_id: DocId) -> bool
        ensures { result ≡ not (slice_index (set_counts self.now) doc_id == 0) }
    {
        self.rows_rise();
        self.contains(doc_id)
    }

    /// Appends each document once for each of its values, and these values' positions, as far as
    /// memory reaches.
    pub(crate) fn push_positions(
        &self,
        docs: &[DocId],
        docs_out: &mut Vec<DocId>,
        rows_out: &mut Vec<RowId>,
    ) -> Result<(), AllocError>
        ensures { PushesValues (positions_of_rows (optional_shape (set_counts self.now)) docs.now)
            docs_out.old.items docs_out.new.items rows_out.old.items rows_out.new.items result }
    {
        self.rows_rise();
        self.push_ranks(docs, docs_out, rows_out)
    }

    /// Puts in the place of ascending positions the rows that have them.
    pub(crate) fn select_batch_in_place(&self, rank_ids: &mut Vec<RowId>)
        requires rising { is_rising rank_ids.old.items ≡ true }
        requires inside { are_below (sum (set_counts self.now)) rank_ids.old.items ≡ true }
        ensures { rank_ids.new.items ≡ rows_at (set_counts self.now) rank_ids.old.items }
    {
        self.rows_rise();
        self.select_batch(rank_ids);
    }
}

impl fmt::Debug for OptionalIndex {
    fn fmt<W: fmt::Write>(&self, f: &mut fmt::Formatter<W>) -> fmt::Result {
        f.debug_struct("OptionalIndex")
            .field("num_docs", &self.num_docs())
            .field("num_non_null_docs", &self.num_non_nulls())
            .finish_non_exhaustive()
    }
}
