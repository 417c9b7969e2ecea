//! The values of a document, one after another.
ghost use Rattle.std.specs.Prelude.{◌≡◌, ◌≤◌, length, slice_range};

use col_common::RowId;
use col_values::ColumnValues;
use std::marker::{Model, PhantomData};
use std::ops::Range;

/// The values of a document, one after another. Contracts see those that are left.
#[derive(Drop)]
pub struct DocValues<'a, T, V>
where
    T: PartialOrd + Copy,
    V: ColumnValues<T>,
{
    values: &'a V,
    next: RowId,
    end: RowId,
    types: PhantomData<T>,
}

impl<'a, T, V> Model for DocValues<'a, T, V>
where
    T: PartialOrd + Copy,
    V: ColumnValues<T>,
{
    ghost use Rattle.std.specs.Prelude.{List, ◌≤◌, length, slice_range};

    ghost Value = { List T };

    ghost view = { λ s. slice_range (V.values s.values.now) s.next s.end };

    ghost invariant = { λ s. (s.next ≤ s.end) × (s.end ≤ length (V.values s.values.now)) };
}

impl<'a, T, V> DocValues<'a, T, V>
where
    T: PartialOrd + Copy,
    V: ColumnValues<T>,
{
    // The values at positions that follow one another.
    #[inline(always)]
    pub(crate) fn between(values: &'a V, row_ids: Range<RowId>) -> DocValues<'a, T, V>
        requires order { row_ids.start ≤ row_ids.end }
        requires within { row_ids.end ≤ length (V.values values.now) }
        ensures { result ≡ slice_range (V.values values.now) row_ids.start row_ids.end }
    {
        DocValues {
            values,
            next: row_ids.start,
            end: row_ids.end,
            types: PhantomData,
        }
    }
}

impl<'a, T, V> Iterator for DocValues<'a, T, V>
where
    T: PartialOrd + Copy,
    V: ColumnValues<T>,
{
    ghost use Rattle.std.specs.Iterator.{YieldsFirst, item_count};

    type Item = T;

    ghost next_gives = { YieldsFirst (λ left. left) };

    ghost remaining = { item_count (λ left. left) };

    #[inline(always)]
    fn next(&mut self) -> Option<T> {
        if self.next == self.end {
            return None;
        }
        let at = self.next;
        self.next = at + 1;
        Some(self.values.get_val(at))
    }
}
