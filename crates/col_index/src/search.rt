//! Places in rising lists.
ghost use Rattle.std.specs.Prelude.{◌≡◌, ◌^◌, ◌-◌, ◌+◌, ◌*◌, ◌<◌, ◌≤◌, true, length, slice_index_or, IfSome};
ghost use Rattle.col_common.specs.Ascending.{is_rising};
ghost use Rattle.col_model.specs.Positions.{rank};
ghost use Rattle.col_numbers.specs.Readers.{list_of};
ghost use Rattle.col_index.specs.Search.{IsNarrowed};
ghost use Rattle.col_index.specs.Sets.{holds};

use crate::counted_rows::CountedRows;
use col_common::{RowId, Steps};
use col_numbers::U64Values;
use col_values::ColumnValues;
use std::marker::Brand;
use std::sync::ledger::{Blank, Ledger};

/// How many numbers of the list are below a target, where those below `low` are, and those from
/// `high` on are not: by halves.
#[inline(never)]
pub fn narrow(values: &U64Values, low: u32, high: u32, target: u64) -> u32
    requires rising { is_rising (list_of values.now) ≡ true }
    requires narrowed { IsNarrowed (list_of values.now) target low high }
    ensures { result ≡ rank (list_of values.now) target }
{
    narrow_by::<Brand>(values, low, high, target, Blank::new(1))
}

// The search where steps count in a new ledger.
#[inline(always)]
fn narrow_by<L: Ledger>(values: &U64Values, low: u32, high: u32, target: u64, blank: Blank) -> u32
    requires name { blank.name ≡ L.name }
    requires parts { blank.parts ≡ L.parts }
    requires some { 0 < blank.parts }
    requires rising { is_rising (list_of values.now) ≡ true }
    requires narrowed { IsNarrowed (list_of values.now) target low high }
    ensures { result ≡ rank (list_of values.now) target }
{
    let mut steps = Steps::<L>::new(blank);
    narrow_counted(&CountedRows::new(values), low, high, target, &mut steps)
}

/// How many numbers are below a target, where those below `low` are, and those from `high` on are
/// not: by halves.
#[inline(always)]
pub fn narrow_counted<L: Ledger>(
    rows: &CountedRows<'_, L>,
    low: u32,
    high: u32,
    target: u64,
    steps: &mut Steps<L>,
) -> u32
    requires rising { is_rising rows.now ≡ true }
    requires narrowed { IsNarrowed rows.now target low high }
    ensures rank { result ≡ rank rows.now target }
    ensures steps { 2 ^ (steps.new - steps.old) ≤ 2 * (high - low) + 1 }
    ensures least { (high - low) + 2 ≤ 2 * 2 ^ (steps.new - steps.old) }
{
    let mut low = low;
    let mut high = high;
    while low < high {
        let middle = low + (high - low) / 2;
        if rows.look(middle, steps) < target {
            low = middle + 1;
        } else {
            high = middle;
        }
    }
    low
}

/// Whether a row is the one with its rank in a list.
#[inline(never)]
pub fn is_listed_at(rows: &U64Values, at: u32, row: RowId) -> bool
    requires rising { is_rising (list_of rows.now) ≡ true }
    requires at { at ≡ rank (list_of rows.now) row }
    ensures { result ≡ holds (list_of rows.now) row }
{
    at < rows.num_vals() && rows.get_val(at) == u64::from(row)
}

/// How many numbers of a rising list are below a target.
pub fn rank_in(values: &U64Values, target: u64) -> u32
    requires { is_rising (list_of values.now) ≡ true }
    ensures { result ≡ rank (list_of values.now) target }
{
    narrow(values, 0, values.num_vals(), target)
}

/// A place in a rising list: how many numbers are below a target, and the first that isn't, or the
/// greatest number where there is none.
#[derive(Clone, Copy)]
pub struct Place {
    pub at: u32,
    pub next: u64,
    pub target: u64,
}

impl Place {
    ghost use Rattle.col_index.specs.Places.{IsPlaceOfTarget};

    /// The place of 0.
    pub fn first(values: &U64Values) -> Place
        ensures place { IsPlaceOfTarget (list_of values.now) result }
        ensures target { result.target ≡ 0 }
    {
        Place {
            at: 0,
            next: number_at(values, 0),
            target: 0,
        }
    }

    // The place behind the first number that isn't below the target.
    #[inline(always)]
    fn step(self, values: &U64Values) -> Place
        requires rising { is_rising (list_of values.now) ≡ true }
        requires place { IsPlaceOfTarget (list_of values.now) self }
        requires number { self.next < 2 ^ 64 - 1 }
        ensures place { IsPlaceOfTarget (list_of values.now) result }
        ensures target { result.target ≡ self.next + 1 }
    {
        // That there are fewer numbers than 2 ^ 32 is known of their count.
        let _count = values.num_vals();
        let at = self.at + 1;
        Place {
            at,
            next: number_at(values, at),
            target: self.next + 1,
        }
    }

    /// The place of a target; in few steps where it isn't far behind this one.
    #[inline(always)]
    pub fn seek(self, values: &U64Values, target: u64) -> Place
        requires rising { is_rising (list_of values.now) ≡ true }
        requires place { IsPlaceOfTarget (list_of values.now) self }
        ensures place { IsPlaceOfTarget (list_of values.now) result }
        ensures target { result.target ≡ target }
    {
        match self.near(values, target) {
            Some(near) => near,
            None => self.far(values, target),
        }
    }

    /// The place of a target, where it is this one or the one behind it.
    #[inline(always)]
    pub fn near(self, values: &U64Values, target: u64) -> Option<Place>
        requires rising { is_rising (list_of values.now) ≡ true }
        requires place { IsPlaceOfTarget (list_of values.now) self }
        ensures place { IfSome result (λ near. IsPlaceOfTarget (list_of values.now) near) }
        ensures target { IfSome result (λ near. near.target ≡ target) }
    {
        if target < self.target {
            return None;
        }
        if target <= self.next {
            return Some(Place { target, ..self });
        }
        let behind = self.step(values);
        if target <= behind.next {
            return Some(Place { target, ..behind });
        }
        None
    }

    /// The place of a target anywhere; in few steps where it isn't far behind this one.
    pub fn far(self, values: &U64Values, target: u64) -> Place
        requires rising { is_rising (list_of values.now) ≡ true }
        requires place { IsPlaceOfTarget (list_of values.now) self }
        ensures place { IsPlaceOfTarget (list_of values.now) result }
        ensures target { result.target ≡ target }
    {
        if target < self.target {
            return Place::of(values, rank_in(values, target), target);
        }
        Place::of(values, gallop(values, self.at, target), target)
    }

    /// The place of a target, by how many numbers are below it.
    pub fn of(values: &U64Values, at: u32, target: u64) -> Place
        requires { at ≡ rank (list_of values.now) target }
        ensures place { IsPlaceOfTarget (list_of values.now) result }
        ensures target { result.target ≡ target }
    {
        Place {
            at,
            next: number_at(values, at),
            target,
        }
    }
}

// The number at an index, or the greatest of 64 bits past the end.
fn number_at(values: &U64Values, at: u32) -> u64
    ensures { result ≡ slice_index_or (list_of values.now) at (2 ^ 64 - 1) }
{
    if at < values.num_vals() {
        values.get_val(at)
    } else {
        u64::MAX
    }
}

// How many numbers are below a target, where those before a place are: in steps that double.
#[inline(never)]
fn gallop(values: &U64Values, near: u32, target: u64) -> u32
    requires rising { is_rising (list_of values.now) ≡ true }
    requires narrowed { IsNarrowed (list_of values.now) target near (length (list_of values.now)) }
    ensures { result ≡ rank (list_of values.now) target }
{
    let count = values.num_vals();
    let mut low = near;
    let mut step = 1;
    while low < count {
        let probe = low + (step - 1).min(count - 1 - low);
        if values.get_val(probe) >= target {
            return narrow(values, low, probe, target);
        }
        low = probe + 1;
        step = step.saturating_mul(2);
    }
    low
}
