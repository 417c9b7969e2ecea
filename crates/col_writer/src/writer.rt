//! Values by document and column name.
ghost use Rattle.std.specs.Prelude.{◌≡◌, []};
ghost use Rattle.col_model.specs.Column.{signed_of};
ghost use Rattle.col_model.specs.ColumnType as types;
ghost use Rattle.col_model.specs.Recording.{recorded, content_after};
ghost use Rattle.col_model.specs.Table.{number, text};
ghost use Rattle.col_types.specs.Cells.{bool_cell, unsigned_cell};
ghost use Rattle.col_types.specs.Numbers.{number_of};
ghost use Rattle.col_writer_columns.specs.Answers.{RecordsOrRefuses};
ghost use Rattle.col_writer_columns.specs.Values.{value_type};

mod changes;
mod column_types;
mod mem_usage;
mod named_columns;
mod places;
mod serialize;
mod sort_order;
mod soundness;

use changes::Post;
use col_common::{ColumnarError, DateTime, DocId, Ipv6Addr};
use col_types::NumericalValue;
use col_values::MonotonicallyMappableToU64;
use col_writer_columns::{NumericalColumnWriter, PlainColumnWriter, StrOrBytesColumnWriter};
use named_columns::NamedColumns;
use std::alloc::Global;
use std::marker::Model;

/// Values by document and column name. Contracts see what was recorded.
pub struct ColumnarWriter {
    alloc: Global,
    numerical: NamedColumns<NumericalColumnWriter>,
    bytes: NamedColumns<StrOrBytesColumnWriter>,
    strs: NamedColumns<StrOrBytesColumnWriter>,
    bools: NamedColumns<PlainColumnWriter<bool>>,
    ip_addrs: NamedColumns<PlainColumnWriter<Ipv6Addr>>,
    datetimes: NamedColumns<PlainColumnWriter<u64>>,
}

impl Model for ColumnarWriter {
    ghost use Rattle.col_model.specs.Written.{Recorded};
    ghost use Rattle.col_writer.specs.Contents.{writer_content};
    ghost use Rattle.col_writer.specs.Columns.{columns_of};

    ghost Value = { Recorded };

    ghost view = { λ w. writer_content (columns_of w.numerical w.bytes
        w.strs w.bools w.ip_addrs w.datetimes) };
}

// By hand, so that a drop of a writer is one call in proofs.
impl Drop for ColumnarWriter {
    fn drop(self) {
        let ColumnarWriter {
            alloc: _,
            numerical,
            bytes,
            strs,
            bools,
            ip_addrs,
            datetimes,
        } = self;
        drop(numerical);
        drop(bytes);
        drop(strs);
        drop(bools);
        drop(ip_addrs);
        drop(datetimes);
    }
}

impl ColumnarWriter {
    /// A writer without columns.
    pub fn new(alloc: Global) -> ColumnarWriter
        ensures { result ≡ [] }
    {
        ColumnarWriter {
            alloc,
            numerical: NamedColumns::new(alloc),
            bytes: NamedColumns::new(alloc),
            strs: NamedColumns::new(alloc),
            bools: NamedColumns::new(alloc),
            ip_addrs: NamedColumns::new(alloc),
            datetimes: NamedColumns::new(alloc),
        }
    }

    /// Records a number.
    #[inline]
    pub fn record_numerical(
        &mut self,
        doc: DocId,
        name: &str,
        value: NumericalValue,
    ) -> Result<(), ColumnarError>
        ensures { RecordsOrRefuses self.old self.new result (content_after self.old
            (recorded doc name.now (value_type value) (number (number_of value)))) }
    {
        self.numerical.change(self.alloc, name, Post { doc, value })
    }

    /// Records bytes.
    #[inline]
    pub fn record_bytes(
        &mut self,
        doc: DocId,
        name: &str,
        value: &[u8],
    ) -> Result<(), ColumnarError>
        ensures { RecordsOrRefuses self.old self.new result (content_after self.old
            (recorded doc name.now types.bytes (text value.now))) }
    {
        self.bytes.change(self.alloc, name, Post { doc, value })
    }

    /// Records a text.
    #[inline]
    pub fn record_str(&mut self, doc: DocId, name: &str, value: &str) -> Result<(), ColumnarError>
        ensures { RecordsOrRefuses self.old self.new result (content_after self.old
            (recorded doc name.now types.str (text value.now))) }
    {
        let value = value.as_bytes();
        self.strs.change(self.alloc, name, Post { doc, value })
    }

    /// Records a bool.
    #[inline]
    pub fn record_bool(&mut self, doc: DocId, name: &str, value: bool) -> Result<(), ColumnarError>
        ensures { RecordsOrRefuses self.old self.new result (content_after self.old
            (recorded doc name.now types.bool (bool_cell value))) }
    {
        self.bools.change(self.alloc, name, Post { doc, value })
    }

    /// Records an address.
    #[inline]
    pub fn record_ip_addr(
        &mut self,
        doc: DocId,
        name: &str,
        value: Ipv6Addr,
    ) -> Result<(), ColumnarError>
        ensures { RecordsOrRefuses self.old self.new result (content_after self.old
            (recorded doc name.now types.ip (unsigned_cell value))) }
    {
        self.ip_addrs.change(self.alloc, name, Post { doc, value })
    }

    /// Records a point in time.
    #[inline]
    pub fn record_datetime(
        &mut self,
        doc: DocId,
        name: &str,
        value: DateTime,
    ) -> Result<(), ColumnarError>
        ensures { RecordsOrRefuses self.old self.new result (content_after self.old
            (recorded doc name.now types.datetime (number value))) }
    {
        let value = time_code(value);
        self.datetimes.change(self.alloc, name, Post { doc, value })
    }
}

// The code by which a column keeps a point in time.
#[inline]
fn time_code(value: DateTime) -> u64
    ensures { signed_of result ≡ value }
{
    value.into_timestamp_nanos().to_u64()
}
