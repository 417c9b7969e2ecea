//! A list of values seen through a map.
ghost use Rattle.std.specs.Prelude.{◌≡◌, ◌+◌, ◌<◌, ◌≤◌, length, take, drop, map as map_by};
ghost use Rattle.std.specs.List.{All};
ghost use Rattle.col_values.specs.Bounds.{IsMappedBound, IsOfValues, AreExact};
ghost use Rattle.col_values.specs.Monotonic.{AllMapped, Passes};

use crate::{ColumnValues, Found, Rows, StrictlyMonotonicFn};
use col_common::{Iterable, RowId, Walk};
use std::marker::{Model, PhantomData};

// So many values are read before they are mapped.
const BLOCK_LEN: usize = 64;

/// A list of values seen through a map.
#[derive(Drop)]
pub struct MonotonicColumn<External, Internal, V, M>
where
    External: PartialOrd + Copy,
    Internal: PartialOrd + Copy,
    V: ColumnValues<External>,
    M: StrictlyMonotonicFn<External, Internal>,
{
    values: V,
    mapping: M,
    min_value: Internal,
    max_value: Internal,
    types: PhantomData<External>,
}

impl<External, Internal, V, M> Model for MonotonicColumn<External, Internal, V, M>
where
    External: PartialOrd + Copy,
    Internal: PartialOrd + Copy,
    V: ColumnValues<External>,
    M: StrictlyMonotonicFn<External, Internal>,
{
    ghost use Rattle.std.specs.Prelude.{map};
    ghost use Rattle.col_values.specs.Values.{Bounded};
    ghost use Rattle.col_values.specs.Monotonic.{IsMapped};

    ghost Value = { Bounded Internal };

    ghost view = { λ c.
        record {
          values = map (M.there c.mapping) (V.values c.values);
          low = c.min_value;
          high = c.max_value;
        } };

    ghost invariant = { λ c.
        IsMapped Internal.partial_cmp (M.is_in c.mapping) (M.there c.mapping)
        (V.values c.values) c.min_value c.max_value };
}

/// The values, seen through the map.
pub fn monotonic_map_column<External, Internal, V, M>(
    values: V,
    map: M,
) -> MonotonicColumn<External, Internal, V, M>
where
    External: PartialOrd + Copy,
    Internal: PartialOrd + Copy + Default,
    V: ColumnValues<External>,
    M: StrictlyMonotonicFn<External, Internal>,
    requires { AllMapped (M.is_in map) (V.values values) (V.IsLeast values) (V.IsGreatest values) }
    ensures values { result.values ≡ map_by (M.there map) (V.values values) }
    ensures least { IsMappedBound Internal.is_default
        (M.there map) (V.values values) (V.IsLeast values) result.low }
    ensures greatest { IsMappedBound Internal.is_default
        (M.there map) (V.values values) (V.IsGreatest values) result.high }
    ensures exact { IsOfValues (V.values values) (V.IsLeast values) →
        IsOfValues (V.values values) (V.IsGreatest values) →
        AreExact Internal.partial_cmp Internal.is_default result.values result.low result.high }
{
    let (min_value, max_value) = if values.num_vals() == 0 {
        (Internal::default(), Internal::default())
    } else {
        (
            map.mapping(values.min_value()),
            map.mapping(values.max_value()),
        )
    };
    MonotonicColumn {
        values,
        mapping: map,
        min_value,
        max_value,
        types: PhantomData,
    }
}

impl<External, Internal, V, M> MonotonicColumn<External, Internal, V, M>
where
    External: PartialOrd + Copy,
    Internal: PartialOrd + Copy,
    V: ColumnValues<External>,
    M: StrictlyMonotonicFn<External, Internal>,
{
    /// The list, and the map that it is seen through.
    pub fn parts(&self) -> (&V, &M)
        ensures { self.now.values ≡ map_by (M.there result.1.now) (V.values result.0.now) }
    {
        (&self.values, &self.mapping)
    }
}

impl<Internal, V, M> MonotonicColumn<u64, Internal, V, M>
where
    Internal: PartialOrd + Copy,
    V: ColumnValues<u64>,
    M: StrictlyMonotonicFn<u64, Internal>,
{
    /// Does what `get_range` does, with numbers that the list's own `get_range` reads, a block at a
    /// time.
    pub fn get_mapped_range(&self, start: u64, output: &mut [Internal])
        requires { start + length output.old ≤ length self.now.values }
        ensures { output.new ≡ take (length output.old) (drop start self.now.values) }
    {
        let mut block = [0; BLOCK_LEN];
        map_range(&self.values, &self.mapping, start, &mut block, output);
    }
}

impl<External, Internal, V, M> ColumnValues<Internal> for MonotonicColumn<External, Internal, V, M>
where
    External: PartialOrd + Copy,
    Internal: PartialOrd + Copy,
    V: ColumnValues<External>,
    M: StrictlyMonotonicFn<External, Internal>,
{
    ghost values = { λ c. c.values };

    ghost IsLeast = { λ c v. v ≡ c.low };

    ghost IsGreatest = { λ c v. v ≡ c.high };

    fn num_vals(&self) -> u32 {
        self.values.num_vals()
    }

    #[inline(always)]
    fn get_val(&self, idx: u32) -> Internal {
        self.mapping.mapping(self.values.get_val(idx))
    }

    fn min_value(&self) -> Internal {
        self.min_value
    }

    fn max_value(&self) -> Internal {
        self.max_value
    }

    fn get_row_ids_between(
        &self,
        low: Internal,
        high: Internal,
        rows: Rows,
        hits: &mut Vec<RowId>,
    ) -> Found {
        let Some(first) = self.mapping.at_least(low) else {
            hits.clear();
            return Ok(());
        };
        let Some(last) = self.mapping.at_most(high) else {
            hits.clear();
            return Ok(());
        };
        self.values.get_row_ids_between(first, last, rows, hits)
    }
}

// What the values from a position on are mapped to, a block at a time.
fn map_range<External, Internal, V, M>(
    values: &V,
    mapping: &M,
    start: u64,
    block: &mut [External],
    output: &mut [Internal],
)
where
    External: PartialOrd + Copy,
    Internal: PartialOrd + Copy,
    V: ColumnValues<External>,
    M: StrictlyMonotonicFn<External, Internal>,
    requires inside { All (Passes (M.is_in mapping.now)) (V.values values.now) }
    requires within { start + length output.old ≤ length (V.values values.now) }
    requires room { 0 < length block.old }
    ensures { output.new ≡
        take (length output.old) (drop start (map_by (M.there mapping.now) (V.values values.now))) }
{
    // That there are fewer than 2 ^ 32 values is known of the count.
    let _count = values.num_vals();
    let mut done = 0;
    while done < output.len() {
        let len = (output.len() - done).min(block.len());
        values.get_range(start + done as u64, &mut block[..len]);
        map_block(mapping, &block[..len], &mut output[done..done + len]);
        done += len;
    }
}

// What the values of a block are mapped to.
fn map_block<External, Internal, M>(mapping: &M, block: &[External], output: &mut [Internal])
where
    External: PartialOrd + Copy,
    Internal: PartialOrd + Copy,
    M: StrictlyMonotonicFn<External, Internal>,
    requires inside { All (Passes (M.is_in mapping.now)) block.now }
    requires alike { length block.now ≡ length output.old }
    ensures { output.new ≡ map_by (M.there mapping.now) block.now }
{
    for at in 0..block.len() {
        output[at] = mapping.mapping(block[at]);
    }
}

impl<External, Internal, V, M> Iterable<Internal> for MonotonicColumn<External, Internal, V, M>
where
    External: PartialOrd + Copy,
    Internal: PartialOrd + Copy,
    V: ColumnValues<External>,
    M: StrictlyMonotonicFn<External, Internal>,
{
    ghost items = { λ c. c.values };

    ghost stands = { λ c w. w.place ≤ length c.values };

    ghost left = { λ c w. drop w.place c.values };

    fn walk(&self) -> Walk {
        self.iter().walk()
    }

    fn next(&self, at: &mut Walk) -> Option<Internal> {
        self.iter().next(at)
    }
}
