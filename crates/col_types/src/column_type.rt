//! The types of columns.
ghost use Rattle.std.specs.Prelude.{◌≡◌, ◌==◌, false, Some, None, IfOk, IfErr, MatchOption};
ghost use Rattle.col_model.specs.ColumnType.{type_code, type_of_code, type_name, is_numerical, same_type};
ghost use Rattle.col_model.specs.ColumnType as types;
ghost use Rattle.col_types.specs.Kinds.{kind_of, numerical_kind_of};

use crate::NumericalType;
use col_common::InvalidData;
use serde::{Deserialize, Serialize};
use std::fmt;

/// The type of a column.
#[derive(Clone, Copy, Debug, PartialEq, Eq, PartialOrd, Ord, Hash, Serialize, Deserialize)]
pub enum ColumnType {
    I64,
    U64,
    Bytes,
    Str,
    Bool,
    IpAddr,
    DateTime,
}

impl ColumnType {
    /// The code in a key.
    pub fn to_code(self) -> u8
        ensures { result ≡ type_code (kind_of self) }
    {
        match self {
            ColumnType::I64 => 0,
            ColumnType::U64 => 1,
            ColumnType::Bytes => 3,
            ColumnType::Str => 4,
            ColumnType::Bool => 5,
            ColumnType::IpAddr => 6,
            ColumnType::DateTime => 7,
        }
    }

    /// The type of a code.
    pub fn try_from_code(code: u8) -> Result<ColumnType, InvalidData>
        ensures ok { IfOk result (λ t. type_of_code code ≡ Some (kind_of t)) }
        ensures invalid_data { IfErr result (λ _. type_of_code code ≡ None) }
    {
        match code {
            0 => Ok(ColumnType::I64),
            1 => Ok(ColumnType::U64),
            3 => Ok(ColumnType::Bytes),
            4 => Ok(ColumnType::Str),
            5 => Ok(ColumnType::Bool),
            6 => Ok(ColumnType::IpAddr),
            7 => Ok(ColumnType::DateTime),
            _ => Err(InvalidData),
        }
    }

    /// The word for it in scripts, reports and messages.
    pub fn word(self) -> &'static str
        ensures { result.now ≡ type_name (kind_of self) }
    {
        match self {
            ColumnType::I64 => "i64",
            ColumnType::U64 => "u64",
            ColumnType::Bytes => "bytes",
            ColumnType::Str => "str",
            ColumnType::Bool => "bool",
            ColumnType::IpAddr => "ip",
            ColumnType::DateTime => "datetime",
        }
    }

    /// Whether its values are points in time.
    pub fn is_date_time(self) -> bool
        ensures { result ≡ same_type (kind_of self) types.datetime }
    {
        matches!(self, ColumnType::DateTime)
    }

    /// The numerical type that it is; none where it isn't numerical.
    pub fn numerical_type(self) -> Option<NumericalType>
        ensures { MatchOption result (is_numerical (kind_of self) ≡ false)
            (λ t. numerical_kind_of t ≡ kind_of self) }
    {
        match self {
            ColumnType::I64 => Some(NumericalType::I64),
            ColumnType::U64 => Some(NumericalType::U64),
            ColumnType::Bytes
            | ColumnType::Str
            | ColumnType::Bool
            | ColumnType::IpAddr
            | ColumnType::DateTime => None,
        }
    }
}

impl From<NumericalType> for ColumnType {
    ghost from_gives = { λ numerical t. kind_of t ≡ numerical_kind_of numerical };

    fn from(numerical_type: NumericalType) -> ColumnType {
        match numerical_type {
            NumericalType::I64 => ColumnType::I64,
            NumericalType::U64 => ColumnType::U64,
        }
    }
}

impl fmt::Display for ColumnType {
    ghost output = { λ t. Some (type_name (kind_of t)) };

    fn fmt<W: fmt::Write>(&self, f: &mut fmt::Formatter<W>) -> fmt::Result {
        f.write_str(self.word())
    }
}
