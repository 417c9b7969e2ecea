//! Lists of numbers in place of values of any type.
ghost use Rattle.std.specs.Prelude.{◌≤◌, length, drop};

use col_common::{ColumnarError, Iterable, RowId, Walk};
use col_compact::CompactSpaceU64Accessor;
use col_dynamic::{Column, NumValues};
use col_values::ColumnValues;
use std::ops::Range;

/// Numbers that are read, or the codes of addresses.
#[derive(Drop)]
pub enum LenientValues {
    Num(NumValues<u64>),
    Compact(CompactSpaceU64Accessor),
}

/// A column of numbers in place of one of any type: the numbers of its values, the ordinals of its
/// terms, or the codes of its addresses.
pub type LenientColumn = Column<u64, LenientValues>;

impl ColumnValues<u64> for LenientValues {
    ghost use Rattle.col_dynamic_open.specs.LenientValues.{lenient_values_of, IsLow, IsHigh};

    ghost values = { lenient_values_of };

    ghost IsLeast = { IsLow };

    ghost IsGreatest = { IsHigh };

    fn num_vals(&self) -> u32 {
        match self {
            LenientValues::Num(values) => values.num_vals(),
            LenientValues::Compact(values) => values.num_vals(),
        }
    }

    #[inline(always)]
    fn get_val(&self, idx: u32) -> u64 {
        match self {
            LenientValues::Num(values) => values.get_val(idx),
            LenientValues::Compact(values) => values.get_val(idx),
        }
    }

    fn min_value(&self) -> u64 {
        match self {
            LenientValues::Num(values) => values.min_value(),
            LenientValues::Compact(values) => values.min_value(),
        }
    }

    fn max_value(&self) -> u64 {
        match self {
            LenientValues::Num(values) => values.max_value(),
            LenientValues::Compact(values) => values.max_value(),
        }
    }

    fn get_vals(&self, indexes: &[u32], output: &mut [u64]) {
        match self {
            LenientValues::Num(values) => values.get_vals(indexes, output),
            LenientValues::Compact(values) => values.get_vals(indexes, output),
        }
    }

    fn get_vals_opt(&self, indexes: &[u32], output: &mut [Option<u64>]) {
        match self {
            LenientValues::Num(values) => values.get_vals_opt(indexes, output),
            LenientValues::Compact(values) => values.get_vals_opt(indexes, output),
        }
    }

    fn get_range(&self, start: u64, output: &mut [u64]) {
        match self {
            LenientValues::Num(values) => values.get_range(start, output),
            LenientValues::Compact(values) => values.get_range(start, output),
        }
    }

    fn get_row_ids_between(
        &self,
        low: u64,
        high: u64,
        row_ids: Range<RowId>,
        hits: &mut Vec<RowId>,
    ) -> Result<(), ColumnarError> {
        match self {
            LenientValues::Num(values) => values.get_row_ids_between(low, high, row_ids, hits),
            LenientValues::Compact(values) => values.get_row_ids_between(low, high, row_ids, hits),
        }
    }
}

impl Iterable<u64> for LenientValues {
    ghost use Rattle.col_dynamic_open.specs.LenientValues.{lenient_values_of};

    ghost items = { lenient_values_of };

    ghost stands = { λ r w. w.place ≤ length (lenient_values_of r) };

    ghost left = { λ r w. drop w.place (lenient_values_of r) };

    fn walk(&self) -> Walk {
        self.iter().walk()
    }

    #[inline]
    fn next(&self, at: &mut Walk) -> Option<u64> {
        self.iter().next(at)
    }
}
