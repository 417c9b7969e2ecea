//! Writes the columns of a table.
ghost use Rattle.std.specs.Prelude.{◌≡◌, true, not, map, filter, length, Ok, IfOk, option_map};
ghost use Rattle.std.specs.FinMap.Entries.{is_sorted};
ghost use Rattle.std.specs.List.{list_all, list_any};
ghost use Rattle.std.specs.Str.{is_utf8};
ghost use Rattle.col_common.specs.Ascending.{are_below};
ghost use Rattle.col_model.specs.Category.{slot_cmp, category_of};
ghost use Rattle.col_model.specs.Refusal.{each_ok};
ghost use Rattle.col_model.specs.Written.{has_zero, is_past_docs, written};
ghost use Rattle.col_keys.specs.KeyTables.{key_at};
ghost use Rattle.col_keys.specs.Put.{no_columns};
ghost use Rattle.col_writer_columns.specs.Answers.{Gives};
ghost use Rattle.col_types.specs.Kinds.{kind_of};
ghost use Rattle.col_writer_file.specs.EntryColumns.{category_in, entry_in};
ghost use Rattle.col_writer_file.specs.OnRows.{recorded_docs, content_on, type_on};
ghost use Rattle.col_writer_file.specs.Tables.{named_entry, slot_type_of, made, PutsColumn, PutsColumns, WritesFile, WritesTable};

use crate::{EntryColumn, NamedEntry};
use col_common::{ColumnarError, RowId, Sink};
use col_keys::ColumnarSerializer;
use col_types::ColumnType;
use col_writer_rows::RowOrder;
use std::alloc::{AllocError, Global};

/// Writes the table of some columns in the order of their slots: as many rows as there are
/// documents, each at the row that the list has for it, or at its own where there is none.
pub fn serialize_table<K: Sink>(
    alloc: Global,
    columns: &[NamedEntry<'_>],
    num_docs: RowId,
    old_to_new_row_ids: Option<&[RowId]>,
    sink: &mut K,
) -> Result<(), ColumnarError>
    requires { is_sorted slot_cmp (map named_entry columns.now) ≡ true }
    ensures { let perm = option_map (λ s. s.now) old_to_new_row_ids.entry in
        WritesTable (K.seen sink.old) (K.seen sink.new) result
        (written (map named_entry columns.now) num_docs perm) }
{
    if have_docs_past(columns, num_docs) {
        return Err(ColumnarError::DocOutOfRange);
    }
    let order = RowOrder::new(alloc, num_docs, old_to_new_row_ids)?;
    let named = columns_of_table(alloc, columns)?;
    let types = check_columns(alloc, &named, &order)?;
    serialize_file(alloc, &named, &types, &order, sink)
}

// The types of the columns, or the first refusal.
fn check_columns(
    alloc: Global,
    columns: &[NamedEntry<'_>],
    order: &RowOrder,
) -> Result<Vec<ColumnType>, ColumnarError>
    requires { list_all (λ c. are_below (length order.now) (recorded_docs (named_entry c).1))
        columns.now ≡ true }
    ensures types { Gives (λ v. map kind_of v.items) result
        (each_ok (slot_type_of order.now) (map named_entry columns.now)) }
    ensures categories { IfOk result (λ v. map (λ t. category_of (kind_of t)) v.items
        ≡ map (λ c. category_in c.column) columns.now) }
{
    let mut types = Vec::new(alloc);
    for column in columns {
        types.push(column.column.check(alloc, order)?)?;
    }
    Ok(types)
}

// Writes a file of columns that refuse nothing.
fn serialize_file<K: Sink>(
    alloc: Global,
    columns: &[NamedEntry<'_>],
    types: &[ColumnType],
    order: &RowOrder,
    sink: &mut K,
) -> Result<(), ColumnarError>
    requires below { list_all (λ c. are_below (length order.now) (recorded_docs (named_entry c).1))
        columns.now ≡ true }
    requires typed { each_ok (slot_type_of order.now) (map named_entry columns.now)
        ≡ Ok (map kind_of types.now) }
    requires categories { map (λ t. category_of (kind_of t)) types.now
        ≡ map (λ c. category_in c.column) columns.now }
    requires named { list_all (λ c. not (has_zero c.name.now)) columns.now ≡ true }
    requires sorted { is_sorted slot_cmp (map named_entry columns.now) ≡ true }
    ensures { WritesFile (K.seen sink.old) (K.seen sink.new) result (record {
      row_count = length order.now;
      columns = made order.now (map named_entry columns.now) (map kind_of types.now);
    }) }
{
    let mut file = ColumnarSerializer::new(alloc);
    serialize_columns(alloc, columns, types, order, &mut file, sink)?;
    file.finalize(order.num_rows(), sink)
}

// Puts columns that refuse nothing into a file without columns.
fn serialize_columns<K: Sink>(
    alloc: Global,
    columns: &[NamedEntry<'_>],
    types: &[ColumnType],
    order: &RowOrder,
    file: &mut ColumnarSerializer,
    sink: &mut K,
) -> Result<(), ColumnarError>
    requires empty { file.old ≡ no_columns }
    requires below { list_all (λ c. are_below (length order.now) (recorded_docs (named_entry c).1))
        columns.now ≡ true }
    requires typed { each_ok (slot_type_of order.now) (map named_entry columns.now)
        ≡ Ok (map kind_of types.now) }
    ensures { PutsColumns (K.seen sink.old) (K.seen sink.new) file.new result (length order.now)
        (made order.now (map named_entry columns.now) (map kind_of types.now)) }
{
    for place in 0..columns.len() {
        let column = columns[place];
        put_column(
            alloc,
            column.name,
            &column.column,
            types[place],
            order,
            file,
            sink,
        )?;
    }
    Ok(())
}

// Puts a column that refuses nothing into a file.
fn put_column<K: Sink>(
    alloc: Global,
    name: &str,
    column: &EntryColumn<'_>,
    column_type: ColumnType,
    order: &RowOrder,
    file: &mut ColumnarSerializer,
    sink: &mut K,
) -> Result<(), ColumnarError>
    requires below { are_below (length order.now) (recorded_docs (entry_in column.now)) ≡ true }
    requires typed { type_on (category_in column.now) (entry_in column.now) order.now
        ≡ Ok (kind_of column_type) }
    ensures puts { PutsColumn file.old file.new (K.seen sink.old) (K.seen sink.new) result
        (key_at name.now column_type) (length order.now)
        (content_on (entry_in column.now) order.now) }
    ensures text { is_utf8 name.now ≡ true }
{
    let mut put = file.start_serialize_column(name, column_type);
    column.serialize(alloc, order, &mut put.bytes)?;
    put.finalize(file, sink)
}

// Whether a document of a column isn't below a number.
fn have_docs_past(columns: &[NamedEntry<'_>], num_docs: RowId) -> bool
    ensures { result ≡ list_any (λ c. is_past_docs num_docs (named_entry c)) columns.now }
{
    columns.iter().any(|column| column.has_doc_past(num_docs))
}

// The columns whose names have no zero byte.
fn columns_of_table<'a>(
    alloc: Global,
    columns: &[NamedEntry<'a>],
) -> Result<Vec<NamedEntry<'a>>, AllocError>
    ensures { IfOk result (λ v. map named_entry v.items
        ≡ filter (λ p. not (has_zero p.0.name)) (map named_entry columns.now)) }
{
    let mut named = Vec::new(alloc);
    for column in columns {
        if column.is_named() {
            named.push(*column)?;
        }
    }
    Ok(named)
}
