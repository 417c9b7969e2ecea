//! Puts the lines of a column.
ghost use Rattle.std.specs.Prelude.{◌≡◌, ◌∷◌, [], map};
ghost use Rattle.std.specs.List.{enumerate_from};
ghost use Rattle.col_column.specs.Columns.{rows_of_values};
ghost use Rattle.col_dynamic.specs.Dynamic.{type_of, content_of};
ghost use Rattle.col_model.specs.ColumnType as types;
ghost use Rattle.col_model.specs.Limits.{cell_count};
ghost use Rattle.col_program.specs.Report.{column_line, column_lines};
ghost use Rattle.col_model.specs.Table.{Cell};
ghost use Rattle.col_text.specs.Texts.{texts_content};
ghost use Rattle.col_report.specs.Printed.{PutsLines, filled_lines};
ghost use Rattle.col_report.specs.Reported.{named_as};

use crate::cells::PlainCells;
use crate::names::put_name;
use crate::rows::put_rows;
use crate::term_cells::{BytesCells, TextCells};
use crate::words::cardinality_word;
use col_column::Column;
use col_dynamic::DynamicColumn;
use col_print::{Out, put_number, put_quoted};
use col_text::{BytesColumn, StrColumn};
use col_values::ColumnValues;

// Puts the line of a column, and those of its rows unless the report is short.
pub(crate) fn put_column<O: Out>(name: &str, column: &DynamicColumn, short: bool, out: &mut O)
    ensures { PutsLines (O.seen out.old) (O.seen out.new)
        (column_lines short (named_as name.now column.now)) }
{
    put_column_line(name, column, out);
    if short {
        return;
    }
    put_row_lines(column, out);
}

// Puts the line of a column.
fn put_column_line<O: Out>(name: &str, column: &DynamicColumn, out: &mut O)
    ensures { PutsLines (O.seen out.old) (O.seen out.new)
        (column_line (named_as name.now column.now) ∷ []) }
{
    out.put(b"[\"column\",");
    put_name(name, column.column_type(), out);
    put_quoted(out, cardinality_word(column.get_cardinality()));
    out.put(b",");
    put_number(out, cells_in(column) as u64);
    out.put(b"]\n");
}

// How many cells a column has.
fn cells_in(column: &DynamicColumn) -> u32
    ensures { result ≡ cell_count (content_of column.now).rows }
{
    match column {
        DynamicColumn::Bool(column) => values_in(column),
        DynamicColumn::I64(column) => values_in(column),
        DynamicColumn::U64(column) => values_in(column),
        DynamicColumn::IpAddr(column) => values_in(column),
        DynamicColumn::DateTime(column) => values_in(column),
        DynamicColumn::Bytes(column) => values_in(column.ords()),
        DynamicColumn::Str(column) => values_in(column.bytes_column().ords()),
    }
}

// How many values a column has, each of which is seen as a cell.
fn values_in<T, V>(column: &Column<T, V>) -> u32
where
    T: PartialOrd + Copy,
    V: ColumnValues<T>,
    ensures { (cell : T → Cell) →
        result ≡ cell_count (map (map cell) (rows_of_values V.values column.now)) }
{
    column.values_are_counted();
    column.values().num_vals()
}

// Puts the lines of a column's rows.
fn put_row_lines<O: Out>(column: &DynamicColumn, out: &mut O)
    ensures { PutsLines (O.seen out.old) (O.seen out.new)
        (filled_lines (type_of column.now) (enumerate_from 0 (content_of column.now).rows)) }
{
    match column {
        DynamicColumn::Bool(column) => put_rows(column, &PlainCells, out),
        DynamicColumn::I64(column) => put_rows(column, &PlainCells, out),
        DynamicColumn::U64(column) => put_rows(column, &PlainCells, out),
        DynamicColumn::IpAddr(column) => put_rows(column, &PlainCells, out),
        DynamicColumn::DateTime(column) => put_rows(column, &PlainCells, out),
        DynamicColumn::Bytes(column) => put_bytes_rows(column, out),
        DynamicColumn::Str(column) => put_text_rows(column, out),
    }
}

// The same of a column of byte strings.
fn put_bytes_rows<O: Out>(column: &BytesColumn, out: &mut O)
    ensures { PutsLines (O.seen out.old) (O.seen out.new)
        (filled_lines types.bytes (enumerate_from 0 (texts_content column.now).rows)) }
{
    let cells = BytesCells {
        dictionary: column.dictionary(),
    };
    put_rows(column.ords(), &cells, out);
}

// The same of a column of texts.
fn put_text_rows<O: Out>(column: &StrColumn, out: &mut O)
    ensures { PutsLines (O.seen out.old) (O.seen out.new)
        (filled_lines types.str (enumerate_from 0 (texts_content column.now).rows)) }
{
    let cells = TextCells {
        dictionary: column.dictionary(),
    };
    put_rows(column.bytes_column().ords(), &cells, out);
}
