//! Values in a vector.
ghost use Rattle.std.specs.Prelude.{◌≡◌, ◌^◌, ◌<◌, ◌≤◌, length, drop};
ghost use Rattle.col_values.specs.Bounds.{AreExact};

use crate::ColumnValues;
use col_common::{Iterable, Walk};
use std::marker::Model;

/// Values in a vector.
#[derive(Drop)]
pub struct VecColumn<T: PartialOrd + Copy> {
    values: Vec<T>,
    min_value: T,
    max_value: T,
}

impl<T: PartialOrd + Copy> Model for VecColumn<T> {
    ghost use Rattle.std.specs.Prelude.{length, ◌<◌, ◌^◌};
    ghost use Rattle.col_values.specs.Values.{Encloses, Bounded};

    ghost Value = { Bounded T };

    ghost view = { λ c.
        record { values = c.values.items; low = c.min_value; high = c.max_value } };

    ghost invariant = { λ c. (length c.values.items < 2 ^ 32)
        × Encloses T.partial_cmp c.min_value c.max_value c.values.items };
}

// The least and the greatest of the values, and the default of none.
fn bounds<T: Ord + Copy + Default>(values: &[T]) -> (T, T)
    ensures { AreExact T.partial_cmp T.is_default values.now result.0 result.1 }
{
    let Some(first) = values.first() else {
        return (T::default(), T::default());
    };
    let mut least = *first;
    let mut greatest = *first;
    for value in values {
        least = least.min(*value);
        greatest = greatest.max(*value);
    }
    (least, greatest)
}

impl<T: Ord + Copy + Default> VecColumn<T> {
    /// A column of these values.
    pub fn from_vec(values: Vec<T>) -> VecColumn<T>
        requires { length values.items < 2 ^ 32 }
        ensures values { result.values ≡ values.items }
        ensures bounds { AreExact T.partial_cmp T.is_default result.values result.low result.high }
    {
        let (min_value, max_value) = bounds(&values);
        VecColumn {
            values,
            min_value,
            max_value,
        }
    }
}

impl<T: PartialOrd + Copy> VecColumn<T> {
    /// The values.
    pub fn into_vec(self) -> Vec<T>
        ensures { result.items ≡ self.values }
    {
        self.values
    }
}

impl<T: PartialOrd + Copy> ColumnValues<T> for VecColumn<T> {
    ghost values = { λ c. c.values };

    ghost IsLeast = { λ c v. v ≡ c.low };

    ghost IsGreatest = { λ c v. v ≡ c.high };

    fn num_vals(&self) -> u32 {
        self.values.len() as u32
    }

    fn get_val(&self, idx: u32) -> T {
        self.values[idx as usize]
    }

    fn min_value(&self) -> T {
        self.min_value
    }

    fn max_value(&self) -> T {
        self.max_value
    }
}

impl<T: PartialOrd + Copy> Iterable<T> for VecColumn<T> {
    ghost items = { λ c. c.values };

    ghost stands = { λ c w. w.place ≤ length c.values };

    ghost left = { λ c w. drop w.place c.values };

    fn walk(&self) -> Walk {
        self.iter().walk()
    }

    fn next(&self, at: &mut Walk) -> Option<T> {
        self.iter().next(at)
    }
}
