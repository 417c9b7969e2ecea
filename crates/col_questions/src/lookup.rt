//! A lookup, and the ends of its values.
ghost use Rattle.std.specs.Prelude.{◌≡◌};
ghost use Rattle.col_types.specs.Kinds.{kind_of};
ghost use Rattle.col_questions.specs.Finds.{ends_type};

use col_common::{DateTime, Ipv6Addr};
use col_types::ColumnType;

/// The least and the greatest value that a lookup finds, of the type of its column.
#[derive(Debug, Drop)]
pub enum Ends {
    Bool { lo: bool, hi: bool },
    I64 { lo: i64, hi: i64 },
    U64 { lo: u64, hi: u64 },
    IpAddr { lo: Ipv6Addr, hi: Ipv6Addr },
    DateTime { lo: DateTime, hi: DateTime },
    Bytes { lo: Vec<u8>, hi: Vec<u8> },
    Str { lo: String, hi: String },
}

impl Ends {
    /// The type of the column.
    pub fn column_type(&self) -> ColumnType
        ensures { kind_of result ≡ ends_type self.now }
    {
        match self {
            Ends::Bool { .. } => ColumnType::Bool,
            Ends::I64 { .. } => ColumnType::I64,
            Ends::U64 { .. } => ColumnType::U64,
            Ends::IpAddr { .. } => ColumnType::IpAddr,
            Ends::DateTime { .. } => ColumnType::DateTime,
            Ends::Bytes { .. } => ColumnType::Bytes,
            Ends::Str { .. } => ColumnType::Str,
        }
    }
}

/// A lookup: the column's name, the ends of the values, and the documents from `from` up to `to`.
#[derive(Debug, Drop)]
pub struct Find {
    pub name: String,
    pub ends: Ends,
    pub from: u32,
    pub to: u32,
}
