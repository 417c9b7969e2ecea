//! Lists that are walked from the front.
ghost use Rattle.std.specs.Prelude.{◌≡◌, ◌+◌, ◌-◌, ◌≤◌, ◌+ℤ◌, pos, List, drop, length};
ghost use Rattle.std.specs.List.{range_with_len};
ghost use Rattle.col_common.specs.Walks.{IsNext, int_range, int_range_len};

use std::ops::Range;

/// Where a walk stands. What the numbers mean is for each list to say.
#[derive(Clone, Copy, Debug, Default, PartialEq, Eq)]
pub struct Walk {
    pub segment: u64,
    pub place: u64,
    pub inner: u64,
    pub sum: u64,
}

/// A finite list, read one item after another, by any number of walks.
pub trait Iterable<T> {
    ghost use Rattle.col_common.specs.declared.iterable.Walk.{Walk};

    /// The items, in order.
    ghost items: { Self → List T };

    /// Holds of a walk of this list.
    ghost stands: { Self → Walk → Type 0 };

    /// The items that such a walk has still to give.
    ghost left: { Self → Walk → List T };

    /// A walk at the front.
    fn walk(&self) -> Walk
        ensures stands { stands self.now result }
        ensures front { left self.now result ≡ items self.now };

    /// The item where the walk stands, which moves on; none at the end, where it stays.
    fn next(&self, at: &mut Walk) -> Option<T>
        requires { stands self.now at.old }
        ensures stands { stands self.now at.new }
        ensures value { IsNext (left self.now at.old) result (left self.now at.new) };
}

impl<T: Copy> Iterable<T> for &[T] {
    ghost items = { λ s. s.now };

    ghost stands = { λ s w. w.place ≤ length s.now };

    ghost left = { λ s w. drop w.place s.now };

    fn walk(&self) -> Walk {
        Walk::default()
    }

    fn next(&self, at: &mut Walk) -> Option<T> {
        let item = *self.get(at.place as usize)?;
        at.place += 1;
        Some(item)
    }
}

impl Iterable<u32> for Range<u32> {
    ghost items = { λ r. range_with_len r.start (r.end - r.start) };

    ghost stands = { λ r w. w.place ≤ r.end - r.start };

    ghost left = { λ r w. range_with_len (r.start + w.place) (r.end - r.start - w.place) };

    fn walk(&self) -> Walk {
        Walk::default()
    }

    fn next(&self, at: &mut Walk) -> Option<u32> {
        let item = self.start as u64 + at.place;
        if item < self.end as u64 {
            at.place += 1;
            Some(item as u32)
        } else {
            None
        }
    }
}

impl Iterable<u64> for Range<u64> {
    ghost items = { λ r. range_with_len r.start (r.end - r.start) };

    ghost stands = { λ r w. w.place ≤ r.end - r.start };

    ghost left = { λ r w. range_with_len (r.start + w.place) (r.end - r.start - w.place) };

    fn walk(&self) -> Walk {
        Walk::default()
    }

    fn next(&self, at: &mut Walk) -> Option<u64> {
        let item = self.start.checked_add(at.place)?;
        if item < self.end {
            at.place += 1;
            Some(item)
        } else {
            None
        }
    }
}

impl Iterable<i64> for Range<i64> {
    ghost items = { λ r. int_range r.start (int_range_len r.start r.end) };

    ghost stands = { λ r w. w.place ≤ int_range_len r.start r.end };

    ghost left = { λ r w.
        int_range (r.start +ℤ pos w.place) (int_range_len r.start r.end - w.place) };

    fn walk(&self) -> Walk {
        Walk::default()
    }

    fn next(&self, at: &mut Walk) -> Option<i64> {
        let item = self.start.checked_add_unsigned(at.place)?;
        if item < self.end {
            at.place += 1;
            Some(item)
        } else {
            None
        }
    }
}
