//! The file of what was recorded.
ghost use Rattle.std.specs.Prelude.{◌≡◌, ◌++◌, map, bytes_eq, string_bytes, option_map, IfOk, OnOk};
ghost use Rattle.std.specs.List.{IsDistinct};
ghost use Rattle.col_model.specs.Category.{Category};
ghost use Rattle.col_model.specs.Category as categories;
ghost use Rattle.col_model.specs.ColumnType as types;
ghost use Rattle.col_model.specs.Written.{Entry, written};
ghost use Rattle.col_types.specs.Cells.{bool_cell, unsigned_cell};
ghost use Rattle.col_writer_columns.specs.Columns.{text_entry, plain_entry};
ghost use Rattle.col_writer_columns.specs.Values.{time_cell};
ghost use Rattle.col_writer_file.specs.EntryColumns.{category_in, entry_in};
ghost use Rattle.col_writer_file.specs.Tables.{named_entry, WritesTable};
ghost use Rattle.col_writer.specs.Columns.{each_entry};
ghost use Rattle.col_writer.specs.Contents.{under};
ghost use Rattle.col_writer.specs.Listed.{IsListed};

use super::ColumnarWriter;
use super::named_columns::NamedColumns;
use col_common::{ColumnarError, Ipv6Addr, RowId, Sink};
use col_writer_columns::{NumericalColumnWriter, PlainColumnWriter, StrOrBytesColumnWriter};
use col_writer_file::{EntryColumn, NamedEntry, serialize_table};
use std::alloc::AllocError;

impl ColumnarWriter {
    /// Writes a file of as many rows as there are documents, with a column for each name and
    /// category; names with a zero byte are left out. A document stands at the row that the list
    /// has for it, or at its own where there is no list. The table is sound, by
    /// `content_is_sound` and the law `written_tables_are_sound`.
    pub fn serialize<K: Sink>(
        &self,
        num_docs: RowId,
        old_to_new_row_ids: Option<&[RowId]>,
        sink: &mut K,
    ) -> Result<(), ColumnarError>
        ensures { let perm = option_map (λ s. s.now) old_to_new_row_ids.entry in
            WritesTable (K.seen sink.old) (K.seen sink.new) result
            (written self.now num_docs perm) }
    {
        let columns = self.sorted_columns()?;
        serialize_table(self.alloc, &columns, num_docs, old_to_new_row_ids, sink)
    }

    // The columns in the order of their slots.
    fn sorted_columns(&self) -> Result<Vec<NamedEntry<'_>>, AllocError>
        ensures { IfOk result (λ v. map named_entry v.items ≡ self.now) }
    {
        let mut columns = self.all_columns()?;
        columns.sort_unstable_by_key(|column| (column.name, column.column.place()));
        Ok(columns)
    }

    // The columns, category by category.
    fn all_columns(&self) -> Result<Vec<NamedEntry<'_>>, AllocError>
        ensures { IfOk result (λ v. IsListed (map named_entry v.items) self.now) }
    {
        names_differ(&self.numerical);
        names_differ(&self.bytes);
        names_differ(&self.strs);
        names_differ(&self.bools);
        names_differ(&self.ip_addrs);
        names_differ(&self.datetimes);
        let mut columns = Vec::new(self.alloc);
        list::<_, Numbers>(&mut columns, &self.numerical)?;
        list::<_, Bytes>(&mut columns, &self.bytes)?;
        list::<_, Strs>(&mut columns, &self.strs)?;
        list::<_, Bools>(&mut columns, &self.bools)?;
        list::<_, IpAddrs>(&mut columns, &self.ip_addrs)?;
        list::<_, DateTimes>(&mut columns, &self.datetimes)?;
        Ok(columns)
    }
}

// That the names of columns differ.
fn names_differ<C>(columns: &NamedColumns<C>)
    ensures { IsDistinct bytes_eq (map (λ p. string_bytes p.0) columns.now) }
{
    columns.names_differ();
}

// How the columns of a category are listed.
pub(super) trait Listing<C> {
    ghost category: { Category };

    // What a column's entry is.
    ghost entry: { C → Entry };

    fn listed(column: &C) -> EntryColumn<'_>
        ensures category { category_in result ≡ category }
        ensures entry { entry_in result ≡ entry column.now };
}

pub(super) struct Numbers;

impl Listing<NumericalColumnWriter> for Numbers {
    ghost category = { categories.numerical };

    ghost entry = { λ e. e };

    fn listed(column: &NumericalColumnWriter) -> EntryColumn<'_> {
        EntryColumn::Numerical(column)
    }
}

pub(super) struct Bytes;

impl Listing<StrOrBytesColumnWriter> for Bytes {
    ghost category = { categories.bytes };

    ghost entry = { text_entry types.bytes };

    fn listed(column: &StrOrBytesColumnWriter) -> EntryColumn<'_> {
        EntryColumn::Bytes(column)
    }
}

pub(super) struct Strs;

impl Listing<StrOrBytesColumnWriter> for Strs {
    ghost category = { categories.str };

    ghost entry = { text_entry types.str };

    fn listed(column: &StrOrBytesColumnWriter) -> EntryColumn<'_> {
        EntryColumn::Str(column)
    }
}

pub(super) struct Bools;

impl Listing<PlainColumnWriter<bool>> for Bools {
    ghost category = { categories.bool };

    ghost entry = { plain_entry types.bool bool_cell };

    fn listed(column: &PlainColumnWriter<bool>) -> EntryColumn<'_> {
        EntryColumn::Bool(column)
    }
}

pub(super) struct IpAddrs;

impl Listing<PlainColumnWriter<Ipv6Addr>> for IpAddrs {
    ghost category = { categories.ip };

    ghost entry = { plain_entry types.ip unsigned_cell };

    fn listed(column: &PlainColumnWriter<Ipv6Addr>) -> EntryColumn<'_> {
        EntryColumn::IpAddr(column)
    }
}

pub(super) struct DateTimes;

impl Listing<PlainColumnWriter<u64>> for DateTimes {
    ghost category = { categories.datetime };

    ghost entry = { plain_entry types.datetime time_cell };

    fn listed(column: &PlainColumnWriter<u64>) -> EntryColumn<'_> {
        EntryColumn::DateTime(column)
    }
}

// Lists the columns of a category.
fn list<'a, C, L: Listing<C>>(
    found: &mut Vec<NamedEntry<'a>>,
    columns: &'a NamedColumns<C>,
) -> Result<(), AllocError>
    ensures { OnOk result (map named_entry found.new.items ≡ map named_entry found.old.items
        ++ under L.category (each_entry L.entry columns.now)) }
{
    for (name, column) in columns.as_slice() {
        found.push(NamedEntry {
            name: name.as_str(),
            column: L::listed(column),
        })?;
    }
    Ok(())
}
