//! What prints the values of columns of numbers, times, flags and addresses.
ghost use Rattle.col_model.specs.ColumnType.{ColumnType};
ghost use Rattle.col_model.specs.ColumnType as types;
ghost use Rattle.col_program.specs.Report.{cell_data};
ghost use Rattle.col_model.specs.Table.{Cell, number};
ghost use Rattle.col_types.specs.Cells.{unsigned_cell, bool_cell};
ghost use Rattle.col_report.specs.Printed.{PutsData};

use col_common::{DateTime, Ipv6Addr};
use col_print::{Out, put_hex, put_number, put_signed};

// Prints the values of a column.
pub(crate) trait PrintCells<T> {
    /// The type of the column.
    ghost kind: { ColumnType };

    /// The cell of a value.
    ghost cell: { Self → T → Cell };

    fn put<O: Out>(&self, value: T, out: &mut O)
        ensures { PutsData (O.seen out.old) (O.seen out.new)
            (cell_data kind (cell self.now value)) };
}

// Prints values that need nothing beside them.
#[derive(Drop)]
pub(crate) struct PlainCells;

impl PrintCells<u64> for PlainCells {
    ghost kind = { types.u64 };

    ghost cell = { λ _. unsigned_cell };

    #[inline]
    #[tactic(auto, unfolding(crate::specs::Printed::PutsData))]
    fn put<O: Out>(&self, value: u64, out: &mut O) {
        put_number(out, value);
    }
}

impl PrintCells<i64> for PlainCells {
    ghost kind = { types.i64 };

    ghost cell = { λ _. number };

    #[inline]
    #[tactic(auto, using(crate::proofs::TextLemmas::integer_put))]
    fn put<O: Out>(&self, value: i64, out: &mut O) {
        put_signed(out, value);
    }
}

impl PrintCells<DateTime> for PlainCells {
    ghost kind = { types.datetime };

    ghost cell = { λ _. number };

    #[inline]
    #[tactic(auto, using(crate::proofs::TextLemmas::integer_put))]
    fn put<O: Out>(&self, value: DateTime, out: &mut O) {
        put_signed(out, value.into_timestamp_nanos());
    }
}

impl PrintCells<bool> for PlainCells {
    ghost kind = { types.bool };

    ghost cell = { λ _. bool_cell };

    #[inline]
    #[tactic(auto, using(crate::proofs::TextLemmas::true_put, crate::proofs::TextLemmas::false_put))]
    fn put<O: Out>(&self, value: bool, out: &mut O) {
        if value {
            out.put(b"true");
        } else {
            out.put(b"false");
        }
    }
}

impl PrintCells<Ipv6Addr> for PlainCells {
    ghost kind = { types.ip };

    ghost cell = { λ _. unsigned_cell };

    fn put<O: Out>(&self, value: Ipv6Addr, out: &mut O) {
        put_hex(out, &value.to_bits().to_be_bytes());
    }
}
