//! The values of a column, in order of recording.
ghost use Rattle.std.specs.Prelude.{◌≡◌, ◌<◌, ◌^◌, [], map, length};
ghost use Rattle.col_index.specs.Versions.{cardinality_of};
ghost use Rattle.col_writer_rows.specs.Documents.{docs_of, IsCut};
ghost use Rattle.col_writer_columns.specs.Answers.{RecordsOrRefuses};
ghost use Rattle.col_writer_columns.specs.Cardinalities.{cardinality_by, rows_up_to};
ghost use Rattle.col_writer_columns.specs.Operations.{operations_of};
ghost use Rattle.col_writer_columns.specs.Posted.{posted_after, IsSet};

use crate::Operations;
use col_common::{ColumnarError, DocId, RowId};
use col_index::Cardinality;
use col_writer_rows::DocList;
use std::alloc::Global;
use std::marker::Model;

// How many values a column may have.
const MAX_NUM_VALUES: usize = 4_294_967_295;

/// The values of a column. Contracts see each beside its document, in order of recording.
#[derive(Drop)]
pub struct ColumnWriter<T: Copy> {
    docs: DocList,
    values: Vec<T>,
}

impl<T: Copy> Model for ColumnWriter<T> {
    ghost use Rattle.std.specs.Prelude.{List, ℕ};
    ghost use Rattle.std.specs.List.{zip};
    ghost use Rattle.col_writer_columns.specs.Posted.{AreBeside};

    ghost Value = { List (ℕ × T) };

    ghost view = { λ c. zip c.docs c.values.items };

    ghost invariant = { λ c. AreBeside c.docs c.values.items };
}

impl<T: Copy> ColumnWriter<T> {
    /// A column without values.
    pub fn new(alloc: Global) -> ColumnWriter<T>
        ensures { result ≡ [] }
    {
        ColumnWriter {
            docs: DocList::new(alloc),
            values: Vec::new(alloc),
        }
    }

    /// Records a value of a document that isn't before the last one.
    #[inline]
    pub fn record(&mut self, doc: DocId, value: T) -> Result<(), ColumnarError>
        ensures { RecordsOrRefuses self.old self.new result (posted_after self.old doc value) }
    {
        if self.docs.is_late(doc) {
            return Err(ColumnarError::DocOrder);
        }
        if self.values.len() >= MAX_NUM_VALUES {
            return Err(ColumnarError::TooLarge);
        }
        self.values.push(value)?;
        if self.docs.push(doc).is_err() {
            self.values.pop();
            return Err(ColumnarError::OutOfMemory);
        }
        Ok(())
    }

    /// Multivalued where a document has two values, else Optional where one of so many documents,
    /// or of those up to the last one, has none, else Full.
    pub fn get_cardinality(&self, num_docs: RowId) -> Cardinality
        ensures { cardinality_of result ≡ cardinality_by num_docs (docs_of self.now) }
    {
        self.docs.never_fall();
        if !self.docs.is_rising() {
            return Cardinality::Multivalued;
        }
        if self.docs.len() < self.rows_up_to(num_docs) {
            return Cardinality::Optional;
        }
        Cardinality::Full
    }

    // So many rows, or those up to the last document.
    fn rows_up_to(&self, num_docs: RowId) -> u64
        ensures { result ≡ rows_up_to num_docs (docs_of self.now) }
    {
        let rows = u64::from(num_docs);
        if self.values.is_empty() {
            return rows;
        }
        let last = self.docs.get(self.values.len() - 1);
        rows.max(u64::from(last) + 1)
    }

    /// The records in order, each document before its first value.
    pub fn operations(&self) -> Operations<'_, T>
        ensures { result ≡ operations_of self.now }
    {
        Operations::new(&self.docs, &self.values)
    }

    /// The documents of the values.
    pub fn docs(&self) -> &DocList
        ensures { result.now ≡ docs_of self.now }
    {
        &self.docs
    }

    /// The values.
    pub fn values(&self) -> &[T]
        ensures values { result.now ≡ map (λ p. p.1) self.now }
        ensures few { length result.now < 2 ^ 32 }
    {
        &self.values
    }

    /// How many values there are.
    pub fn num_values(&self) -> u64
        ensures value { result ≡ length self.now }
        ensures few { result < 2 ^ 32 }
    {
        self.values.len() as u64
    }

    /// Puts another value in the place of the last one.
    #[inline]
    pub(crate) fn set_last(&mut self, value: T)
        requires { 0 < length self.old }
        ensures { IsSet self.old value self.new }
    {
        let last = self.values.len() - 1;
        self.values[last] = value;
    }

    /// Lets the last value go.
    pub(crate) fn pop(&mut self)
        requires { 0 < length self.old }
        ensures { IsCut self.old self.new }
    {
        self.values.pop();
        self.docs.pop();
    }
}
