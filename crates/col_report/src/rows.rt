//! Puts the rows of a column.
ghost use Rattle.std.specs.Prelude.{◌≡◌, ◌<◌, ◌≤◌, ◌∷◌, []};
ghost use Rattle.std.specs.Prelude.{length, map, slice_range, sum};
ghost use Rattle.std.specs.List.{enumerate_from};
ghost use Rattle.col_column.specs.Columns.{IsCounted, rows_by, rows_of_values};
ghost use Rattle.col_index.specs.Indexes.{shape_of};
ghost use Rattle.col_model.specs.Dictionary.{cut};
ghost use Rattle.col_model.specs.Positions.{rows_with_value};
ghost use Rattle.col_print.specs.Puts.{Puts};
ghost use Rattle.col_program.specs.Report.{cell_data, row_line};
ghost use Rattle.col_report.specs.Printed.{PutsLines, filled_lines, more_text};

use crate::cells::PrintCells;
use crate::row_ends::{EachRow, RowEnds};
use col_column::Column;
use col_common::{DocId, Iterable};
use col_index::ColumnIndex;
use col_print::{Out, put_number};
use col_values::ColumnValues;
use std::ops::Range;

// Puts a line for each row that isn't empty.
pub(crate) fn put_rows<T, V, P, O>(column: &Column<T, V>, cells: &P, out: &mut O)
where
    T: PartialOrd + Copy,
    V: ColumnValues<T>,
    P: PrintCells<T>,
    O: Out,
    ensures { PutsLines (O.seen out.old) (O.seen out.new) (filled_lines P.kind
        (enumerate_from 0 (map (map (P.cell cells.now)) (rows_of_values V.values column.now)))) }
{
    column.values_are_counted();
    put_rows_of(column.index(), column.values(), cells, out);
}

// The same of an index and the values that it counts. A row without a value costs nothing, unless
// the index has a start offset for each row.
fn put_rows_of<T, V, P, O>(index: &ColumnIndex, values: &V, cells: &P, out: &mut O)
where
    T: PartialOrd + Copy,
    V: ColumnValues<T>,
    P: PrintCells<T>,
    O: Out,
    requires { IsCounted (shape_of index.now) (length (V.values values.now)) }
    ensures { PutsLines (O.seen out.old) (O.seen out.new) (filled_lines P.kind (enumerate_from 0
        (map (map (P.cell cells.now)) (rows_by (shape_of index.now) (V.values values.now))))) }
{
    match index {
        ColumnIndex::Empty { .. } => {}
        ColumnIndex::Full => {
            let num_rows = values.num_vals();
            let rows = 0..num_rows;
            put_filled_rows(&rows, &EachRow { num_rows }, values, cells, out);
        }
        ColumnIndex::Optional(index) => {
            index.rows_rise();
            let rows = index.iter_non_null_docs();
            put_filled_rows(&rows, index, values, cells, out);
        }
        ColumnIndex::Multivalued(index) => {
            let rows = index.iter_non_null_docs();
            put_filled_rows(&rows, index, values, cells, out);
        }
    }
}

// Puts a line for each of the rows with a value. Behind the last value no row is looked for, nor
// behind a refusal.
fn put_filled_rows<T, V, P, R, E, O>(rows: &R, ends: &E, values: &V, cells: &P, out: &mut O)
where
    T: PartialOrd + Copy,
    V: ColumnValues<T>,
    P: PrintCells<T>,
    R: Iterable<DocId>,
    E: RowEnds,
    O: Out,
    requires rows { R.items rows.now ≡ rows_with_value (E.counts ends.now) }
    requires counted { sum (E.counts ends.now) ≡ length (V.values values.now) }
    ensures { PutsLines (O.seen out.old) (O.seen out.new) (filled_lines P.kind (enumerate_from 0
        (map (map (P.cell cells.now)) (cut (E.counts ends.now) (V.values values.now))))) }
{
    let count = values.num_vals();
    let mut at = rows.walk();
    let mut rank = 0;
    let mut start = 0;
    while start < count {
        if out.is_refused() {
            return;
        }
        let Some(row) = rows.next(&mut at) else {
            return;
        };
        let end = ends.end_at(rank, row);
        put_filled_row(row, values, start..end, cells, out);
        rank += 1;
        start = end;
    }
}

// Puts the line of a row with the values at these positions.
fn put_filled_row<T, V, P, O>(row: u32, values: &V, positions: Range<u32>, cells: &P, out: &mut O)
where
    T: PartialOrd + Copy,
    V: ColumnValues<T>,
    P: PrintCells<T>,
    O: Out,
    requires filled { positions.start < positions.end }
    requires within { positions.end ≤ length (V.values values.now) }
    ensures { PutsLines (O.seen out.old) (O.seen out.new) (row_line P.kind (
      row,
      map (P.cell cells.now) (slice_range (V.values values.now) positions.start positions.end),
    )
        ∷ []) }
{
    out.put(b"[\"row\",");
    put_number(out, row as u64);
    out.put(b",[");
    cells.put(values.get_val(positions.start), out);
    put_others(values, positions.start + 1, positions.end, cells, out);
    out.put(b"]]\n");
}

// Puts the values from one position up to another, each with a comma in front.
fn put_others<T, V, P, O>(values: &V, start: u32, end: u32, cells: &P, out: &mut O)
where
    T: PartialOrd + Copy,
    V: ColumnValues<T>,
    P: PrintCells<T>,
    O: Out,
    requires ordered { start ≤ «end» }
    requires within { «end» ≤ length (V.values values.now) }
    ensures { Puts (O.seen out.old) (O.seen out.new) (more_text (map (cell_data P.kind)
        (map (P.cell cells.now) (slice_range (V.values values.now) start «end»)))) }
{
    for at in start..end {
        out.put(b",");
        cells.put(values.get_val(at), out);
    }
}
