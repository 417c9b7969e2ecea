//! A list of u64 under any codec.
ghost use Rattle.std.specs.Prelude.{◌≡◌, ◌≤◌, ◌<◌, ◌+◌, drop, length, slice_get, Some};
ghost use Rattle.std.specs.Prelude.{IfOk, IfSome};
ghost use Rattle.col_common.specs.Ascending.{is_rising, is_never_falling};
ghost use Rattle.col_model.specs.Stats.{least_of, greatest_of};

use col_codecs::{BitpackedReader, BlockwiseLinearReader, LinearReader};
use col_common::{Iterable, RowId, Walk};
use col_values::{ColumnValues, Found, Rows};
use std::alloc::{AllocError, Global};

/// A list of u64 under any codec, read in place.
#[derive(Drop)]
pub enum U64Values {
    Bitpacked(BitpackedReader),
    Linear(LinearReader),
    BlockwiseLinear(BlockwiseLinearReader),
}

impl U64Values {
    ghost use Rattle.col_numbers.specs.Readers.{list_of};

    /// The same list once more, which shares its bytes.
    pub fn try_clone(&self, alloc: Global) -> Result<U64Values, AllocError>
        ensures { IfOk result (λ r. list_of r ≡ list_of self.now) }
    {
        match self {
            U64Values::Bitpacked(values) => Ok(U64Values::Bitpacked(values.try_clone()?)),
            U64Values::Linear(values) => Ok(U64Values::Linear(values.try_clone()?)),
            U64Values::BlockwiseLinear(values) => {
                Ok(U64Values::BlockwiseLinear(values.try_clone(alloc)?))
            }
        }
    }

    /// Whether each number is below the next, where that is known without a walk.
    pub fn rises(&self) -> Option<bool>
        ensures { IfSome result (λ answer. answer ≡ is_rising (list_of self.now)) }
    {
        match self {
            U64Values::Linear(values) => values.rises(),
            U64Values::Bitpacked(_) | U64Values::BlockwiseLinear(_) => None,
        }
    }

    /// Whether no number is above the next, where that is known without a walk.
    pub fn never_falls(&self) -> Option<bool>
        ensures { IfSome result (λ answer. answer ≡ is_never_falling (list_of self.now)) }
    {
        if self.min_value() == self.max_value() {
            return Some(true);
        }
        match self {
            U64Values::Linear(values) => values.never_falls(),
            U64Values::Bitpacked(_) | U64Values::BlockwiseLinear(_) => None,
        }
    }

    /// The number at an index and the one behind it, by one look at the codec.
    #[inline(always)]
    pub fn get_pair(&self, idx: u32) -> (u64, u64)
        requires { idx + 1 < length (list_of self.now) }
        ensures first { slice_get (list_of self.now) idx ≡ Some result.0 }
        ensures second { slice_get (list_of self.now) (idx + 1) ≡ Some result.1 }
    {
        match self {
            U64Values::Bitpacked(values) => pair_of(values, idx),
            U64Values::Linear(values) => pair_of(values, idx),
            U64Values::BlockwiseLinear(values) => pair_of(values, idx),
        }
    }
}

// The number at an index of a list and the one behind it.
#[inline(always)]
fn pair_of<V: ColumnValues<u64>>(values: &V, idx: u32) -> (u64, u64)
    requires { idx + 1 < length (V.values values.now) }
    ensures first { slice_get (V.values values.now) idx ≡ Some result.0 }
    ensures second { slice_get (V.values values.now) (idx + 1) ≡ Some result.1 }
{
    // That there are fewer than 2 ^ 32 values is known of the count.
    let _count = values.num_vals();
    (values.get_val(idx), values.get_val(idx + 1))
}

impl ColumnValues<u64> for U64Values {
    ghost use Rattle.col_numbers.specs.Readers.{list_of};

    ghost values = { list_of };

    ghost IsLeast = { λ r v. v ≡ least_of (list_of r) };

    ghost IsGreatest = { λ r v. v ≡ greatest_of (list_of r) };

    fn num_vals(&self) -> u32 {
        match self {
            U64Values::Bitpacked(values) => values.num_vals(),
            U64Values::Linear(values) => values.num_vals(),
            U64Values::BlockwiseLinear(values) => values.num_vals(),
        }
    }

    #[inline(always)]
    fn get_val(&self, idx: u32) -> u64 {
        match self {
            U64Values::Bitpacked(values) => values.get_val(idx),
            U64Values::Linear(values) => values.get_val(idx),
            U64Values::BlockwiseLinear(values) => values.get_val(idx),
        }
    }

    fn min_value(&self) -> u64 {
        match self {
            U64Values::Bitpacked(values) => values.min_value(),
            U64Values::Linear(values) => values.min_value(),
            U64Values::BlockwiseLinear(values) => values.min_value(),
        }
    }

    fn max_value(&self) -> u64 {
        match self {
            U64Values::Bitpacked(values) => values.max_value(),
            U64Values::Linear(values) => values.max_value(),
            U64Values::BlockwiseLinear(values) => values.max_value(),
        }
    }

    fn get_vals(&self, indexes: &[u32], output: &mut [u64]) {
        match self {
            U64Values::Bitpacked(values) => values.get_vals(indexes, output),
            U64Values::Linear(values) => values.get_vals(indexes, output),
            U64Values::BlockwiseLinear(values) => values.get_vals(indexes, output),
        }
    }

    fn get_vals_opt(&self, indexes: &[u32], output: &mut [Option<u64>]) {
        match self {
            U64Values::Bitpacked(values) => values.get_vals_opt(indexes, output),
            U64Values::Linear(values) => values.get_vals_opt(indexes, output),
            U64Values::BlockwiseLinear(values) => values.get_vals_opt(indexes, output),
        }
    }

    fn get_range(&self, start: u64, output: &mut [u64]) {
        match self {
            U64Values::Bitpacked(values) => values.get_range(start, output),
            U64Values::Linear(values) => values.get_range(start, output),
            U64Values::BlockwiseLinear(values) => values.get_range(start, output),
        }
    }

    fn get_row_ids_between(&self, low: u64, high: u64, rows: Rows, hits: &mut Vec<RowId>) -> Found {
        match self {
            U64Values::Bitpacked(values) => values.get_row_ids_between(low, high, rows, hits),
            U64Values::Linear(values) => values.get_row_ids_between(low, high, rows, hits),
            U64Values::BlockwiseLinear(values) => {
                values.get_row_ids_between(low, high, rows, hits)
            }
        }
    }
}

impl Iterable<u64> for U64Values {
    ghost use Rattle.col_numbers.specs.Readers.{list_of};

    ghost items = { list_of };

    ghost stands = { λ r w. w.place ≤ length (list_of r) };

    ghost left = { λ r w. drop w.place (list_of r) };

    fn walk(&self) -> Walk {
        self.iter().walk()
    }

    #[inline]
    fn next(&self, at: &mut Walk) -> Option<u64> {
        self.iter().next(at)
    }
}
