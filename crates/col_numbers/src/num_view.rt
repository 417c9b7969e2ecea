//! A list of numbers, seen through a map as values of a type.
ghost use Rattle.std.specs.Prelude.{◌≡◌, ◌+◌, ◌≤◌, ◌<◌, length, take, drop, map, slice_get, Some};
ghost use Rattle.std.specs.List.{All};
ghost use Rattle.col_common.specs.Ascending.{AreBelow};
ghost use Rattle.col_values.specs.Monotonic.{Passes};
ghost use Rattle.col_numbers.specs.Views.{is_seen, IsLeastOf, IsGreatestOf};
ghost use Rattle.col_numbers.specs.Readers.{list_of};

use crate::U64Values;
use col_common::{Iterable, RowId, Walk};
use col_values::{ColumnValues, Found, MonotonicallyMappableToU64, Rows, StrictlyMonotonicFn};
use std::marker::{Model, PhantomData};

// So many numbers are read before they are seen as values.
const BLOCK_LEN: usize = 512;

// The same where fewer are asked for.
const SHORT_BLOCK_LEN: usize = 64;

/// A list of numbers, seen as the values whose numbers a map takes them to.
#[derive(Drop)]
pub struct NumView<T, M>
where
    T: MonotonicallyMappableToU64,
    M: StrictlyMonotonicFn<u64, u64>,
{
    values: U64Values,
    mapping: M,
    types: PhantomData<T>,
}

impl<T, M> Model for NumView<T, M>
where
    T: MonotonicallyMappableToU64,
    M: StrictlyMonotonicFn<u64, u64>,
{
    ghost use Rattle.std.specs.Prelude.{List, map};
    ghost use Rattle.std.specs.List.{All};
    ghost use Rattle.col_values.specs.Monotonic.{Passes};
    ghost use Rattle.col_numbers.specs.Views.{is_seen};
    ghost use Rattle.col_numbers.specs.Readers.{list_of};

    ghost Value = { List T };

    ghost view = { λ c. map (λ n. T.value (M.there c.mapping n)) (list_of c.values) };

    ghost invariant = { λ c.
        All (Passes (is_seen (M.is_in c.mapping) (M.there c.mapping) T.is_code))
        (list_of c.values) };
}

impl<T, M> NumView<T, M>
where
    T: MonotonicallyMappableToU64,
    M: StrictlyMonotonicFn<u64, u64>,
{
    /// The numbers, seen through the map.
    pub fn new(values: U64Values, mapping: M) -> NumView<T, M>
        requires { All (Passes (is_seen (M.is_in mapping) (M.there mapping) T.is_code))
            (list_of values) }
        ensures { result ≡ map (λ n. T.value (M.there mapping n)) (list_of values) }
    {
        NumView {
            values,
            mapping,
            types: PhantomData,
        }
    }

    /// The numbers and the map.
    pub fn into_parts(self) -> (U64Values, M)
        ensures values { self ≡ map (λ n. T.value (M.there result.1 n)) (list_of result.0) }
        ensures seen { All (Passes (is_seen (M.is_in result.1) (M.there result.1) T.is_code))
            (list_of result.0) }
    {
        (self.values, self.mapping)
    }

    /// That each value is one of its type.
    pub fn values_are_in_type(&self)
        ensures { All (Passes T.in_type) self.now }
    {
        // That its values are of the type is known of a view.
        let _mapping = &self.mapping;
    }
}

impl<T, M> ColumnValues<T> for NumView<T, M>
where
    T: MonotonicallyMappableToU64 + Default,
    M: StrictlyMonotonicFn<u64, u64>,
{
    ghost values = { λ c. c };

    ghost IsLeast = { IsLeastOf T.partial_cmp T.is_default };

    ghost IsGreatest = { IsGreatestOf T.partial_cmp T.is_default };

    fn num_vals(&self) -> u32 {
        self.values.num_vals()
    }

    #[inline(always)]
    fn get_val(&self, idx: u32) -> T {
        see(&self.mapping, self.values.get_val(idx))
    }

    fn min_value(&self) -> T {
        if self.values.num_vals() == 0 {
            return T::default();
        }
        see(&self.mapping, self.values.min_value())
    }

    fn max_value(&self) -> T {
        if self.values.num_vals() == 0 {
            return T::default();
        }
        see(&self.mapping, self.values.max_value())
    }

    fn get_range(&self, start: u64, output: &mut [T]) {
        if output.len() <= SHORT_BLOCK_LEN {
            let mut block = [0; SHORT_BLOCK_LEN];
            see_range(&self.values, &self.mapping, start, &mut block, output);
        } else {
            let mut block = [0; BLOCK_LEN];
            see_range(&self.values, &self.mapping, start, &mut block, output);
        }
    }

    fn get_vals(&self, indexes: &[u32], output: &mut [T]) {
        if output.len() <= SHORT_BLOCK_LEN {
            let mut block = [0; SHORT_BLOCK_LEN];
            see_vals(&self.values, &self.mapping, indexes, &mut block, output);
        } else {
            let mut block = [0; BLOCK_LEN];
            see_vals(&self.values, &self.mapping, indexes, &mut block, output);
        }
    }

    fn get_vals_opt(&self, indexes: &[u32], output: &mut [Option<T>]) {
        if output.len() <= SHORT_BLOCK_LEN {
            let mut block = [0; SHORT_BLOCK_LEN];
            find_vals(&self.values, &self.mapping, indexes, &mut block, output);
        } else {
            let mut block = [0; BLOCK_LEN];
            find_vals(&self.values, &self.mapping, indexes, &mut block, output);
        }
    }

    fn get_row_ids_between(&self, low: T, high: T, rows: Rows, hits: &mut Vec<RowId>) -> Found {
        low.known();
        high.known();
        let Some(first) = self.mapping.at_least(low.to_u64()) else {
            hits.clear();
            return Ok(());
        };
        let Some(last) = self.mapping.at_most(high.to_u64()) else {
            hits.clear();
            return Ok(());
        };
        self.values.get_row_ids_between(first, last, rows, hits)
    }
}

// The value that a number is seen as.
#[inline(always)]
fn see<T, M>(mapping: &M, number: u64) -> T
where
    T: MonotonicallyMappableToU64,
    M: StrictlyMonotonicFn<u64, u64>,
    requires { Passes (is_seen (M.is_in mapping.now) (M.there mapping.now) T.is_code) number }
    ensures { result ≡ T.value (M.there mapping.now number) }
{
    T::from_u64(mapping.mapping(number))
}

// The values that the numbers from a position on are seen as, a block at a time.
fn see_range<T: MonotonicallyMappableToU64, M: StrictlyMonotonicFn<u64, u64>>(
    values: &U64Values,
    mapping: &M,
    start: u64,
    block: &mut [u64],
    output: &mut [T],
)
    requires seen { All (Passes (is_seen (M.is_in mapping.now) (M.there mapping.now) T.is_code))
        (list_of values.now) }
    requires within { start + length output.old ≤ length (list_of values.now) }
    requires room { 0 < length block.old }
    ensures { output.new ≡ take (length output.old) (drop start
        (map (λ n. T.value (M.there mapping.now n)) (list_of values.now))) }
{
    // That there are fewer than 2 ^ 32 values is known of the count.
    let _count = values.num_vals();
    let mut done = 0;
    while done < output.len() {
        let len = (output.len() - done).min(block.len());
        values.get_range(start + done as u64, &mut block[..len]);
        see_block(mapping, &block[..len], &mut output[done..done + len]);
        done += len;
    }
}

// The values that the numbers at positions are seen as, a block at a time.
fn see_vals<T: MonotonicallyMappableToU64, M: StrictlyMonotonicFn<u64, u64>>(
    values: &U64Values,
    mapping: &M,
    indexes: &[u32],
    block: &mut [u64],
    output: &mut [T],
)
    requires seen { All (Passes (is_seen (M.is_in mapping.now) (M.there mapping.now) T.is_code))
        (list_of values.now) }
    requires below { AreBelow (length (list_of values.now)) indexes.now }
    requires alike { length indexes.now ≡ length output.old }
    requires room { 0 < length block.old }
    ensures { map Some output.new ≡ map (slice_get
        (map (λ n. T.value (M.there mapping.now n)) (list_of values.now))) indexes.now }
{
    let mut done = 0;
    while done < output.len() {
        let len = (output.len() - done).min(block.len());
        values.get_vals(&indexes[done..done + len], &mut block[..len]);
        see_block(mapping, &block[..len], &mut output[done..done + len]);
        done += len;
    }
}

// The same, each found.
fn find_vals<T: MonotonicallyMappableToU64, M: StrictlyMonotonicFn<u64, u64>>(
    values: &U64Values,
    mapping: &M,
    indexes: &[u32],
    block: &mut [u64],
    output: &mut [Option<T>],
)
    requires seen { All (Passes (is_seen (M.is_in mapping.now) (M.there mapping.now) T.is_code))
        (list_of values.now) }
    requires below { AreBelow (length (list_of values.now)) indexes.now }
    requires alike { length indexes.now ≡ length output.old }
    requires room { 0 < length block.old }
    ensures { output.new ≡ map (slice_get
        (map (λ n. T.value (M.there mapping.now n)) (list_of values.now))) indexes.now }
{
    let mut done = 0;
    while done < output.len() {
        let len = (output.len() - done).min(block.len());
        values.get_vals(&indexes[done..done + len], &mut block[..len]);
        find_block(mapping, &block[..len], &mut output[done..done + len]);
        done += len;
    }
}

// The values that the numbers of a block are seen as.
fn see_block<T: MonotonicallyMappableToU64, M: StrictlyMonotonicFn<u64, u64>>(
    mapping: &M,
    block: &[u64],
    output: &mut [T],
)
    requires seen { All (Passes (is_seen (M.is_in mapping.now) (M.there mapping.now) T.is_code))
        block.now }
    requires alike { length block.now ≡ length output.old }
    ensures { output.new ≡ map (λ n. T.value (M.there mapping.now n)) block.now }
{
    for at in 0..block.len() {
        output[at] = see(mapping, block[at]);
    }
}

// The same, each found.
fn find_block<T: MonotonicallyMappableToU64, M: StrictlyMonotonicFn<u64, u64>>(
    mapping: &M,
    block: &[u64],
    output: &mut [Option<T>],
)
    requires seen { All (Passes (is_seen (M.is_in mapping.now) (M.there mapping.now) T.is_code))
        block.now }
    requires alike { length block.now ≡ length output.old }
    ensures { output.new ≡ map (λ n. Some (T.value (M.there mapping.now n))) block.now }
{
    for at in 0..block.len() {
        output[at] = Some(see(mapping, block[at]));
    }
}

impl<T, M> Iterable<T> for NumView<T, M>
where
    T: MonotonicallyMappableToU64 + Default,
    M: StrictlyMonotonicFn<u64, u64>,
{
    ghost items = { λ c. c };

    ghost stands = { λ c w. w.place ≤ length c };

    ghost left = { λ c w. drop w.place c };

    fn walk(&self) -> Walk {
        self.iter().walk()
    }

    fn next(&self, at: &mut Walk) -> Option<T> {
        self.iter().next(at)
    }
}
