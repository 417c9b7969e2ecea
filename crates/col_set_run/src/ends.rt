//! The ends of a lookup, as a set takes them.
ghost use Rattle.std.specs.Prelude.{◌≡◌};
ghost use Rattle.col_model.specs.ColumnType as types;
ghost use Rattle.col_model.specs.Table.{number, text};
ghost use Rattle.col_program.specs.Queries.{end_of_cell};
ghost use Rattle.col_questions.specs.Finds.{ends_type, high_of, low_of};
ghost use Rattle.col_questions.specs.Steps.{end_of};
ghost use Rattle.col_types.specs.Cells.{bool_cell, unsigned_cell};

use col_common::DateTime;
use col_questions::{Ends, QueryValue};
use col_types::TermBytes;

// The two ends.
pub(crate) fn ends_asked(ends: Ends) -> (QueryValue, QueryValue)
    ensures low { end_of result.0 ≡ end_of_cell (ends_type ends) (low_of ends) }
    ensures high { end_of result.1 ≡ end_of_cell (ends_type ends) (high_of ends) }
{
    match ends {
        Ends::Bool { lo, hi } => (flag(lo), flag(hi)),
        Ends::I64 { lo, hi } => (signed(lo), signed(hi)),
        Ends::U64 { lo, hi } => (unsigned(lo), unsigned(hi)),
        Ends::IpAddr { lo, hi } => (
            QueryValue::Addr(lo.to_bits()),
            QueryValue::Addr(hi.to_bits()),
        ),
        Ends::DateTime { lo, hi } => (time(lo), time(hi)),
        Ends::Bytes { lo, hi } => (term(lo), term(hi)),
        Ends::Str { lo, hi } => (term(lo.into_bytes()), term(hi.into_bytes())),
    }
}

fn flag(end: bool) -> QueryValue
    ensures { end_of result ≡ end_of_cell types.bool (bool_cell end) }
{
    QueryValue::Num(if end { 1 } else { 0 })
}

fn signed(end: i64) -> QueryValue
    ensures whole { end_of result ≡ end_of_cell types.i64 (number end) }
    ensures time { end_of result ≡ end_of_cell types.datetime (number end) }
{
    QueryValue::Num(i128::from(end))
}

fn unsigned(end: u64) -> QueryValue
    ensures { end_of result ≡ end_of_cell types.u64 (unsigned_cell end) }
{
    QueryValue::Num(i128::from(end))
}

fn time(end: DateTime) -> QueryValue
    ensures { end_of result ≡ end_of_cell types.datetime (number end) }
{
    signed(end.into_timestamp_nanos())
}

fn term(end: Vec<u8>) -> QueryValue
    ensures bytes { end_of result ≡ end_of_cell types.bytes (text end.items) }
    ensures texts { end_of result ≡ end_of_cell types.str (text end.items) }
{
    QueryValue::Term(TermBytes::from_vec(end))
}
