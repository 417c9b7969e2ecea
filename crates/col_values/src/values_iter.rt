//! The values of a list, one after another.
ghost use Rattle.std.specs.Prelude.{◌≤◌, drop, length};

use crate::ColumnValues;
use col_common::{Iterable, Walk};

/// The values of a list, one after another; `place` of a walk is the position of the next.
#[derive(Clone, Copy)]
pub struct ValuesIter<'a, V> {
    pub values: &'a V,
}

impl<'a, T: PartialOrd + Copy, V: ColumnValues<T>> Iterable<T> for ValuesIter<'a, V> {
    ghost items = { λ s. V.values s.values.now };

    ghost stands = { λ s w. w.place ≤ length (V.values s.values.now) };

    ghost left = { λ s w. drop w.place (V.values s.values.now) };

    fn walk(&self) -> Walk {
        Walk::default()
    }

    #[tactic(auto, using(crate::proofs::HitLemmas::front_value))]
    fn next(&self, at: &mut Walk) -> Option<T> {
        let place = at.place;
        if place >= self.values.num_vals() as u64 {
            return None;
        }
        at.place = place + 1;
        Some(self.values.get_val(place as u32))
    }
}
