//! The order of documents by a column.
ghost use Rattle.std.specs.Prelude.{◌≡◌};
ghost use Rattle.col_model.specs.SortOrder.{sort_order};
ghost use Rattle.col_writer_columns.specs.Answers.{Gives};

use super::ColumnarWriter;
use col_common::{ColumnarError, DocId, RowId};

impl ColumnarWriter {
    /// The documents 0 to `num_docs` - 1 by the first value recorded for them in the numerical,
    /// datetime, str or bytes column of this name, the first that there is, or by falling ones.
    /// Documents without a value come first, or last where values fall; equal ones stay as they
    /// stand. Empty without such a column.
    pub fn sort_order(
        &self,
        sort_field: &str,
        num_docs: RowId,
        reversed: bool,
    ) -> Result<Vec<DocId>, ColumnarError>
        ensures { Gives (λ v. v.items) result
            (sort_order self.now sort_field.now num_docs reversed) }
    {
        if let Some(column) = self.numerical.get(sort_field) {
            return column.sort_order(self.alloc, num_docs, reversed);
        }
        if let Some(column) = self.datetimes.get(sort_field) {
            return column.sort_order(self.alloc, num_docs, reversed);
        }
        if let Some(column) = self.strs.get(sort_field) {
            return column.sort_order(self.alloc, num_docs, reversed);
        }
        if let Some(column) = self.bytes.get(sort_field) {
            return column.sort_order(self.alloc, num_docs, reversed);
        }
        Ok(Vec::new(self.alloc))
    }
}
