//! The types of numbers.
ghost use Rattle.std.specs.Prelude.{◌≡◌, ◌≤◌, Some, IfOk, IfErr};
ghost use Rattle.col_model.specs.ColumnType.{type_code, type_of_code, type_name};
ghost use Rattle.col_types.specs.Kinds.{numerical_kind_of};

use col_common::InvalidData;
use serde::{Deserialize, Serialize};
use std::fmt;

/// The type of some numbers.
#[derive(Clone, Copy, Debug, Default, PartialEq, Eq, Hash, Serialize, Deserialize)]
pub enum NumericalType {
    #[default]
    I64,
    U64,
}

impl NumericalType {
    /// The code, which is that of the column type.
    pub fn to_code(self) -> u8
        ensures { result ≡ type_code (numerical_kind_of self) }
    {
        match self {
            NumericalType::I64 => 0,
            NumericalType::U64 => 1,
        }
    }

    /// The type of a code.
    pub fn try_from_code(code: u8) -> Result<NumericalType, InvalidData>
        ensures ok { IfOk result (λ t. type_of_code code ≡ Some (numerical_kind_of t)) }
        ensures invalid_data { IfErr result (λ _. 2 ≤ code) }
    {
        match code {
            0 => Ok(NumericalType::I64),
            1 => Ok(NumericalType::U64),
            _ => Err(InvalidData),
        }
    }
}

impl fmt::Display for NumericalType {
    ghost output = { λ t. Some (type_name (numerical_kind_of t)) };

    fn fmt<W: fmt::Write>(&self, f: &mut fmt::Formatter<W>) -> fmt::Result {
        f.write_str(match self {
            NumericalType::I64 => "i64",
            NumericalType::U64 => "u64",
        })
    }
}
