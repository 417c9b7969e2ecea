//! Numbers as values of a narrower type.
ghost use Rattle.std.specs.Prelude.{◌≡◌, ℤ, Bool};
ghost use Rattle.col_model.specs.ColumnType as types;
ghost use Rattle.col_model.specs.NumericalType.{accepts_u64};
ghost use Rattle.col_model.specs.Table.{number};
ghost use Rattle.col_values.specs.Monotonic.{Passes};
ghost use Rattle.col_types.specs.Numbers.{typed_number_of, number_of, fits_i64};

use crate::{HasAssociatedColumnType, NumericalValue};
use col_common::DateTime;

/// A type whose values are numbers. As a cell, a value is its number: nanoseconds for a point in
/// time.
pub trait Coerce: HasAssociatedColumnType {
    /// Holds of the numbers, with their types, that a value of this type may be.
    ghost fits: { types.ColumnType × ℤ → Bool };

    /// The value that is this number.
    fn coerce(value: NumericalValue) -> Self
        requires { Passes fits (typed_number_of value) }
        ensures { Self.cell result ≡ number (number_of value) };
}

impl Coerce for i64 {
    ghost fits = { fits_i64 };

    fn coerce(value: NumericalValue) -> i64 {
        match value {
            NumericalValue::I64(val) => val,
            NumericalValue::U64(val) => val as i64,
        }
    }
}

impl Coerce for u64 {
    ghost fits = { accepts_u64 };

    fn coerce(value: NumericalValue) -> u64 {
        match value {
            NumericalValue::I64(val) => val as u64,
            NumericalValue::U64(val) => val,
        }
    }
}

impl Coerce for DateTime {
    ghost fits = { fits_i64 };

    fn coerce(value: NumericalValue) -> DateTime {
        DateTime::from_timestamp_nanos(i64::coerce(value))
    }
}
