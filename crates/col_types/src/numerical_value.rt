//! Numbers of one of two types.
ghost use Rattle.std.specs.Prelude.{◌≡◌};
ghost use Rattle.col_types.specs.Kinds.{numerical_kind_of};
ghost use Rattle.col_types.specs.Numbers.{typed_number_of, number_of, narrowest, ReadsNumber};
ghost use Rattle.col_types.specs.declared.numerical_value.NumericalValue.TheVariants as numbers;

use crate::NumericalType;
use std::str::FromStr;

/// A number of one of the two types.
#[derive(Clone, Copy, Debug, PartialEq, Eq)]
pub enum NumericalValue {
    I64(i64),
    U64(u64),
}

impl NumericalValue {
    /// The type of the number.
    pub fn numerical_type(self) -> NumericalType
        ensures { numerical_kind_of result ≡ (typed_number_of self).0 }
    {
        match self {
            NumericalValue::I64(_) => NumericalType::I64,
            NumericalValue::U64(_) => NumericalType::U64,
        }
    }

    /// The number as an `i64` where that can be, else as it is.
    pub fn normalize(self) -> NumericalValue
        ensures { typed_number_of result ≡ (narrowest (number_of self), number_of self) }
    {
        match self {
            NumericalValue::U64(val) if val <= i64::MAX as u64 => NumericalValue::I64(val as i64),
            NumericalValue::U64(val) => NumericalValue::U64(val),
            NumericalValue::I64(val) => NumericalValue::I64(val),
        }
    }
}

impl FromStr for NumericalValue {
    type Err = ();

    ghost from_str_gives = { ReadsNumber };

    /// The `i64` that the text is, else the `u64`.
    fn from_str(text: &str) -> Result<NumericalValue, ()> {
        if let Ok(val) = text.parse::<i64>() {
            return Ok(NumericalValue::I64(val));
        }
        if let Ok(val) = text.parse::<u64>() {
            return Ok(NumericalValue::U64(val));
        }
        Err(())
    }
}

impl From<i64> for NumericalValue {
    ghost from_gives = { λ val number. number ≡ numbers.I64 val };

    fn from(val: i64) -> NumericalValue {
        NumericalValue::I64(val)
    }
}

impl From<u64> for NumericalValue {
    ghost from_gives = { λ val number. number ≡ numbers.U64 val };

    fn from(val: u64) -> NumericalValue {
        NumericalValue::U64(val)
    }
}
