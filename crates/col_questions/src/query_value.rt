//! Ends of ranges.
use col_types::TermBytes;
use std::fmt;

/// An end of a range: a number of i64, u64, datetime (nanoseconds) or bool (0 or 1), an address by
/// its number, or the bytes of a term.
#[derive(Drop)]
pub enum QueryValue {
    Num(i128),
    Addr(u128),
    Term(TermBytes),
}

impl fmt::Debug for QueryValue {
    fn fmt<W: fmt::Write>(&self, f: &mut fmt::Formatter<W>) -> fmt::Result {
        match self {
            QueryValue::Num(number) => f.debug_tuple("Num").field(number).finish(),
            QueryValue::Addr(number) => f.debug_tuple("Addr").field(number).finish(),
            QueryValue::Term(term) => f.debug_tuple("Term").field(&term.as_slice()).finish(),
        }
    }
}
