//! The first value of each document, or a default.
ghost use Rattle.std.specs.Prelude.{◌≡◌, ◌≤◌, length, drop};
ghost use Rattle.col_column.specs.Columns.{rows_of_values, firsts_or};
ghost use Rattle.col_values.specs.Values.{IsAtMost};

use crate::column::Column;
use col_common::{Iterable, Walk};
use col_values::ColumnValues;
use std::marker::Model;

/// The first value of each document, or a default where it has none: a list of as many values as
/// there are documents, whose bounds include the default.
#[derive(Drop)]
pub struct FirstValueWithDefault<T, V>
where
    T: PartialOrd + Copy,
    V: ColumnValues<T>,
{
    column: Column<T, V>,
    default_value: T,
    min_value: T,
    max_value: T,
}

impl<T, V> Model for FirstValueWithDefault<T, V>
where
    T: PartialOrd + Copy,
    V: ColumnValues<T>,
{
    ghost use Rattle.std.specs.Prelude.{length};
    ghost use Rattle.col_column.specs.Columns.{rows_of_values, firsts_or};
    ghost use Rattle.col_values.specs.Values.{Bounded, Encloses};

    ghost Value = { Bounded T };

    ghost view = { λ s.
        record {
          values = firsts_or s.default_value (rows_of_values V.values s.column);
          low = s.min_value;
          high = s.max_value;
        } };

    ghost invariant = { λ s. Encloses T.partial_cmp s.min_value s.max_value
        (firsts_or s.default_value (rows_of_values V.values s.column)) };
}

impl<T, V> FirstValueWithDefault<T, V>
where
    T: Ord + Copy,
    V: ColumnValues<T>,
{
    // The first values of a column, or a default.
    pub(crate) fn new(column: Column<T, V>, default_value: T) -> FirstValueWithDefault<T, V>
        ensures values { result.values ≡ firsts_or default_value (rows_of_values V.values column) }
        ensures low { IsAtMost T.partial_cmp result.low default_value }
        ensures high { IsAtMost T.partial_cmp default_value result.high }
    {
        let (min_value, max_value) = if column.values().num_vals() == 0 {
            (default_value, default_value)
        } else {
            (
                column.min_value().min(default_value),
                column.max_value().max(default_value),
            )
        };
        FirstValueWithDefault {
            column,
            default_value,
            min_value,
            max_value,
        }
    }
}

impl<T, V> ColumnValues<T> for FirstValueWithDefault<T, V>
where
    T: PartialOrd + Copy,
    V: ColumnValues<T>,
{
    ghost values = { λ c. c.values };

    ghost IsLeast = { λ c v. v ≡ c.low };

    ghost IsGreatest = { λ c v. v ≡ c.high };

    fn num_vals(&self) -> u32 {
        self.column.num_docs()
    }

    #[inline(always)]
    fn get_val(&self, idx: u32) -> T {
        match self.column.first(idx) {
            Some(value) => value,
            None => self.default_value,
        }
    }

    fn min_value(&self) -> T {
        self.min_value
    }

    fn max_value(&self) -> T {
        self.max_value
    }
}

impl<T, V> Iterable<T> for FirstValueWithDefault<T, V>
where
    T: PartialOrd + Copy,
    V: ColumnValues<T>,
{
    ghost items = { λ c. c.values };

    ghost stands = { λ c w. w.place ≤ length c.values };

    ghost left = { λ c w. drop w.place c.values };

    fn walk(&self) -> Walk {
        self.iter().walk()
    }

    fn next(&self, at: &mut Walk) -> Option<T> {
        self.iter().next(at)
    }
}
