//! Puts the lines of facets.
ghost use Rattle.std.specs.Prelude.{◌≡◌, ◌∷◌, [], map, Some, OnOk};
ghost use Rattle.serde_json.specs.Data.{null};
ghost use Rattle.col_dynamic.specs.Dynamic.{type_of, content_of};
ghost use Rattle.col_model.specs.Table.{Table};
ghost use Rattle.col_opened.specs.Opened.{AreOpen};
ghost use Rattle.col_print.specs.Puts.{Puts};
ghost use Rattle.col_program.specs.Report.{counts_line, list_data};
ghost use Rattle.col_types.specs.Kinds.{kind_of};
ghost use Rattle.col_report.specs.Counted.{shown_count};
ghost use Rattle.col_report.specs.Printed.{PutsData, PutsLines, more_text};
ghost use Rattle.col_report.specs.Reported.{counts_of, facet_line};

use crate::count_cells::put_cell;
use crate::names::put_name;
use col_common::FileHandle;
use col_dynamic::DynamicColumn;
use col_facet::{FacetCount, facet_all};
use col_file::ColumnarReader;
use col_opened::OpenColumns;
use col_print::{Out, put_number};
use col_types::ColumnType;
use std::alloc::{AllocError, Global};

// Puts the line of how often each cell of a column stands.
pub(crate) fn put_counts_line<F: FileHandle, O: Out>(
    alloc: Global,
    reader: &ColumnarReader<F>,
    columns: &OpenColumns,
    name: &str,
    column_type: ColumnType,
    out: &mut O,
) -> Result<(), AllocError>
    ensures { (t : Table) → AreOpen reader.now.keys t columns.now → OnOk result (PutsLines
        (O.seen out.old) (O.seen out.new) (counts_line t name.now (kind_of column_type) ∷ [])) }
{
    match columns.get(reader, name, column_type) {
        Some(column) => put_counts(alloc, name, column_type, column, out),
        None => {
            put_no_counts(name, column_type, out);
            Ok(())
        }
    }
}

// The same where there is no such column.
fn put_no_counts<O: Out>(name: &str, column_type: ColumnType, out: &mut O)
    ensures { PutsLines (O.seen out.old) (O.seen out.new)
        (facet_line name.now (kind_of column_type) null ∷ []) }
{
    out.put(b"[\"facet\",");
    put_name(name, column_type, out);
    out.put(b"null]\n");
}

// The same of a column of this type.
fn put_counts<O: Out>(
    alloc: Global,
    name: &str,
    column_type: ColumnType,
    column: &DynamicColumn,
    out: &mut O,
) -> Result<(), AllocError>
    requires { type_of column.now ≡ kind_of column_type }
    ensures { OnOk result (PutsLines (O.seen out.old) (O.seen out.new)
        (facet_line name.now (kind_of column_type)
        (counts_of (kind_of column_type) (Some (content_of column.now))) ∷ [])) }
{
    let facets = facet_all(alloc, column)?;
    put_facets(name, &facets, column_type, out);
    Ok(())
}

// Puts the line of these counts of a column's cells.
fn put_facets<O: Out>(name: &str, facets: &[FacetCount], column_type: ColumnType, out: &mut O)
    ensures { PutsLines (O.seen out.old) (O.seen out.new) (facet_line name.now (kind_of column_type)
        (list_data (map (shown_count (kind_of column_type)) facets.now)) ∷ []) }
{
    out.put(b"[\"facet\",");
    put_name(name, column_type, out);
    put_list(facets, column_type, out);
    out.put(b"]\n");
}

// Puts an array of these counts.
fn put_list<O: Out>(facets: &[FacetCount], column_type: ColumnType, out: &mut O)
    ensures { PutsData (O.seen out.old) (O.seen out.new)
        (list_data (map (shown_count (kind_of column_type)) facets.now)) }
{
    let [first, others @ ..] = facets else {
        out.put(b"[]");
        return;
    };
    out.put(b"[");
    put_count(first, column_type, out);
    put_others(others, column_type, out);
    out.put(b"]");
}

// Puts counts, each with a comma in front.
fn put_others<O: Out>(facets: &[FacetCount], column_type: ColumnType, out: &mut O)
    ensures { Puts (O.seen out.old) (O.seen out.new)
        (more_text (map (shown_count (kind_of column_type)) facets.now)) }
{
    for facet in facets {
        out.put(b",");
        put_count(facet, column_type, out);
    }
}

// Puts an array of a cell and its count.
fn put_count<O: Out>(facet: &FacetCount, column_type: ColumnType, out: &mut O)
    ensures { PutsData (O.seen out.old) (O.seen out.new)
        (shown_count (kind_of column_type) facet.now) }
{
    out.put(b"[");
    put_cell(&facet.cell, column_type, out);
    out.put(b",");
    put_number(out, facet.count);
    out.put(b"]");
}
