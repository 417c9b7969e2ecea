//! The values of a column of bool, address or time, in order of recording. A point in time is kept
//! as its code.
ghost use Rattle.std.specs.Prelude.{◌≡◌, [], false};
ghost use Rattle.col_model.specs.Category as categories;
ghost use Rattle.col_model.specs.ColumnType as types;
ghost use Rattle.col_types.specs.Cells.{bool_cell, unsigned_cell};
ghost use Rattle.col_writer_columns.specs.Answers.{RecordsOrRefuses, Gives};
ghost use Rattle.col_writer_columns.specs.Columns.{records_of, plain_entry};
ghost use Rattle.col_writer_columns.specs.Posted.{posted_after};
ghost use Rattle.col_writer_columns.specs.Sorting.{sorted_docs};
ghost use Rattle.col_writer_columns.specs.SoundEntries.{IsSoundIn};
ghost use Rattle.col_writer_columns.specs.Values.{time_cell};

use crate::ColumnWriter;
use crate::ranges::{addresses_fit, codes_fit};
use crate::sort_keys::TimeKeys;
use crate::sort_order::{SortedDocs, sort_docs};
use col_common::{ColumnarError, DocId, Ipv6Addr, RowId};
use std::alloc::Global;

/// The values of a column of one type, and whether that type was asked for.
#[derive(Drop)]
pub struct PlainColumnWriter<T: Copy> {
    pub column: ColumnWriter<T>,
    pub is_forced: bool,
}

impl<T: Copy> PlainColumnWriter<T> {
    /// A column without values.
    pub fn new(alloc: Global) -> PlainColumnWriter<T>
        ensures column { result.column ≡ [] }
        ensures free { result.is_forced ≡ false }
    {
        PlainColumnWriter {
            column: ColumnWriter::new(alloc),
            is_forced: false,
        }
    }

    /// Records a value of a document that isn't before the last one.
    #[inline]
    pub fn record(&mut self, doc: DocId, value: T) -> Result<(), ColumnarError>
        ensures column { RecordsOrRefuses self.old.column self.new.column result
            (posted_after self.old.column doc value) }
        ensures forced { self.new.is_forced ≡ self.old.is_forced }
    {
        self.column.record(doc, value)
    }
}

impl PlainColumnWriter<bool> {
    /// That the entry of bools is sound.
    pub fn entry_is_sound(&self)
        ensures { IsSoundIn categories.bool (plain_entry types.bool bool_cell self.now) }
    {}
}

impl PlainColumnWriter<Ipv6Addr> {
    /// That the entry of addresses is sound. It looks at each address.
    pub fn entry_is_sound(&self)
        ensures { IsSoundIn categories.ip (plain_entry types.ip unsigned_cell self.now) }
    {
        addresses_fit(self.column.values());
    }
}

impl PlainColumnWriter<u64> {
    /// That the entry of points in time is sound, of which these are the codes.
    pub fn entry_is_sound(&self)
        ensures { IsSoundIn categories.datetime (plain_entry types.datetime time_cell self.now) }
    {
        codes_fit(self.column.values());
    }

    /// The documents 0 to `num_docs` - 1 by their first point in time, of which these are the
    /// codes, or by falling ones.
    pub fn sort_order(&self, alloc: Global, num_docs: RowId, reversed: bool) -> SortedDocs
        ensures { Gives (λ v. v.items) result
            (sorted_docs (records_of types.datetime time_cell self.now.column) num_docs reversed) }
    {
        let keys = TimeKeys::new(self.column.values());
        sort_docs(alloc, self.column.docs(), &keys, num_docs, reversed)
    }
}
