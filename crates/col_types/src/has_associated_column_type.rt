//! Types whose values stand in columns of one type.
ghost use Rattle.std.specs.Prelude.{◌≡◌, pos};
ghost use Rattle.col_model.specs.ColumnType as types;
ghost use Rattle.col_model.specs.Table.{Cell, number};
ghost use Rattle.col_types.specs.Kinds.{kind_of};
ghost use Rattle.col_types.specs.Cells.{AreCells, unsigned_cell, bool_cell};
ghost use Rattle.col_model.proofs.CellLaws.{unsigned_cells, signed_cells, bool_cells};

use crate::ColumnType;
use col_common::{DateTime, Ipv6Addr};

/// A type whose values stand in columns of one type.
pub trait HasAssociatedColumnType: PartialOrd + Copy {
    /// The type of a column of such values.
    ghost kind: { types.ColumnType };

    /// The cell of a value.
    ghost cell: { Self → Cell };

    /// The type of a column of such values.
    fn column_type() -> ColumnType
        ensures { kind_of result ≡ kind };

    /// The value whose cell is 0.
    fn default_value() -> Self
        ensures { cell result ≡ number (pos 0) };

    /// Cells compare as the values.
    ghost laws: { AreCells Self.partial_cmp cell };
}

impl HasAssociatedColumnType for u64 {
    ghost kind = { types.u64 };

    ghost cell = { unsigned_cell };

    ghost laws = { unsigned_cells };

    fn column_type() -> ColumnType {
        ColumnType::U64
    }

    fn default_value() -> u64 {
        0
    }
}

impl HasAssociatedColumnType for i64 {
    ghost kind = { types.i64 };

    ghost cell = { number };

    ghost laws = { signed_cells };

    fn column_type() -> ColumnType {
        ColumnType::I64
    }

    fn default_value() -> i64 {
        0
    }
}

impl HasAssociatedColumnType for bool {
    ghost kind = { types.bool };

    ghost cell = { bool_cell };

    ghost laws = { bool_cells };

    fn column_type() -> ColumnType {
        ColumnType::Bool
    }

    fn default_value() -> bool {
        false
    }
}

impl HasAssociatedColumnType for DateTime {
    ghost kind = { types.datetime };

    ghost cell = { number };

    ghost laws = { signed_cells };

    fn column_type() -> ColumnType {
        ColumnType::DateTime
    }

    fn default_value() -> DateTime {
        DateTime::from_timestamp_nanos(0)
    }
}

impl HasAssociatedColumnType for Ipv6Addr {
    ghost kind = { types.ip };

    ghost cell = { unsigned_cell };

    ghost laws = { unsigned_cells };

    fn column_type() -> ColumnType {
        ColumnType::IpAddr
    }

    fn default_value() -> Ipv6Addr {
        Ipv6Addr::from_bits(0)
    }
}
