//! Puts the cells of facets.
ghost use Rattle.serde_json.specs.Data as values;
ghost use Rattle.serde_json.specs.Find.{of_integer};
ghost use Rattle.col_model.specs.ColumnType as types;
ghost use Rattle.col_model.specs.Table as cells;
ghost use Rattle.col_program.specs.Report.{cell_data};
ghost use Rattle.col_types.specs.Kinds.{kind_of};
ghost use Rattle.col_facet.specs.declared.facet_cell.FacetCell.TheVariants as facets;
ghost use Rattle.col_report.specs.Counted.{shown_cell};
ghost use Rattle.col_report.specs.Printed.{PutsData};

use crate::term_cells::put_text;
use col_facet::FacetCell;
use col_print::{Out, put_hex, put_long};
use col_types::ColumnType;

// Puts a cell of a column of this type.
pub(crate) fn put_cell<O: Out>(cell: &FacetCell, column_type: ColumnType, out: &mut O)
    ensures { PutsData (O.seen out.old) (O.seen out.new)
        (shown_cell (kind_of column_type) cell.now) }
{
    match cell {
        FacetCell::Num(number) => put_num(*number, column_type, out),
        FacetCell::Addr(address) => put_address(*address, out),
        FacetCell::Term(term) => put_term(term.as_slice(), column_type, out),
    }
}

// Puts a number, or a flag.
fn put_num<O: Out>(number: i128, column_type: ColumnType, out: &mut O)
    ensures { PutsData (O.seen out.old) (O.seen out.new)
        (shown_cell (kind_of column_type) (facets.Num number)) }
{
    if column_type.to_code() == ColumnType::Bool.to_code() {
        put_flag(number, out);
    } else {
        put_integer(number, out);
    }
}

// Puts a flag, which is not set where the number is 0.
fn put_flag<O: Out>(number: i128, out: &mut O)
    ensures { PutsData (O.seen out.old) (O.seen out.new)
        (cell_data types.bool (cells.number number)) }
{
    if number == 0 {
        out.put(b"false");
    } else {
        out.put(b"true");
    }
}

#[tactic(auto, using(crate::proofs::TextLemmas::integer_put))]
fn put_integer<O: Out>(number: i128, out: &mut O)
    ensures { PutsData (O.seen out.old) (O.seen out.new) (values.number (of_integer number)) }
{
    put_long(out, number);
}

// Puts an address, by its octets.
fn put_address<O: Out>(address: u128, out: &mut O)
    ensures { PutsData (O.seen out.old) (O.seen out.new)
        (shown_cell types.ip (facets.Addr address)) }
{
    put_hex(out, &address.to_be_bytes());
}

// Puts a text, or byte strings by their digits.
#[tactic(auto, unfolding(crate::specs::Printed::PutsData))]
fn put_term<O: Out>(term: &[u8], column_type: ColumnType, out: &mut O)
    ensures { PutsData (O.seen out.old) (O.seen out.new)
        (shown_cell (kind_of column_type) (facets.Term term.now)) }
{
    if column_type.to_code() == ColumnType::Bytes.to_code() {
        put_hex(out, term);
    } else {
        put_text(out, term);
    }
}
