//! A list's values with their positions.
ghost use Rattle.std.specs.Prelude.{◌≤◌, drop, length};
ghost use Rattle.std.specs.List.{enumerate_from};

use col_common::{Iterable, Walk};
use col_values::ColumnValues;

/// A list's values with their positions, one after another; `place` of a walk is the next position.
#[derive(Drop)]
pub struct Positions<'a, V> {
    pub values: &'a V,
}

impl<'a, V: ColumnValues<u64>> Iterable<(u32, u64)> for Positions<'a, V> {
    ghost items = { λ s. enumerate_from 0 (V.values s.values.now) };

    ghost stands = { λ s w. w.place ≤ length (V.values s.values.now) };

    ghost left = { λ s w. enumerate_from w.place (drop w.place (V.values s.values.now)) };

    fn walk(&self) -> Walk {
        Walk::default()
    }

    fn next(&self, at: &mut Walk) -> Option<(u32, u64)> {
        let place = at.place;
        if place >= self.values.num_vals() as u64 {
            return None;
        }
        at.place = place + 1;
        Some((place as u32, self.values.get_val(place as u32)))
    }
}
