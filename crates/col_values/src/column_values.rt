//! Lists of values, asked by position.
ghost use Rattle.std.specs.Prelude.{◌≡◌, ◌+◌, ◌≤◌, ◌<◌, List, take, drop, length, slice_get, map, Some, true};
ghost use Rattle.std.specs.List.{All};
ghost use Rattle.std.specs.Range.{range_inclusive_start, range_inclusive_end};
ghost use Rattle.col_common.specs.Ascending.{AreBelow, is_rising};
ghost use Rattle.col_common.specs.Replacing.{Replaces};
ghost use Rattle.col_values.specs.Values.{IsAtMost, hits_between, is_between};

use crate::ValuesIter;
use col_common::{ColumnarError, RowId};
use std::ops::{Range, RangeInclusive};

/// A lookup gathers what it finds in blocks of so many positions.
const BLOCK_LEN: u32 = 1024;

// Whether a value is one from the first to the last.
fn is_within<T: PartialOrd>(low: &T, value: &T, high: &T) -> bool
    ensures { result ≡ is_between T.partial_cmp low.now high.now value.now }
{
    *low <= *value && *value <= *high
}

/// Rows from a first one up to the last.
pub type Rows = Range<RowId>;

/// What a lookup says once its hits are there, else why there are none.
pub type Found = Result<(), ColumnarError>;

/// A list of values.
pub trait ColumnValues<T: PartialOrd + Copy> {
    /// The values, in order.
    ghost values: { Self → List T };

    /// Holds of what `min_value` may tell.
    ghost IsLeast: { Self → T → Type 0 };

    /// Holds of what `max_value` may tell.
    ghost IsGreatest: { Self → T → Type 0 };

    /// How many values there are.
    fn num_vals(&self) -> u32
        ensures { result ≡ length (values self.now) };

    /// The value at a position.
    fn get_val(&self, idx: u32) -> T
        requires { idx < length (values self.now) }
        ensures { slice_get (values self.now) idx ≡ Some result };

    /// A value that none is below.
    fn min_value(&self) -> T
        ensures value { IsLeast self.now result }
        ensures encloses { All (IsAtMost T.partial_cmp result) (values self.now) };

    /// A value that none is above.
    fn max_value(&self) -> T
        ensures value { IsGreatest self.now result }
        ensures encloses { All (λ v. IsAtMost T.partial_cmp v result) (values self.now) };

    /// The values at positions.
    fn get_vals(&self, indexes: &[u32], output: &mut [T])
        requires below { AreBelow (length (values self.now)) indexes.now }
        requires alike { length indexes.now ≡ length output.old }
        ensures { map Some output.new ≡ map (slice_get (values self.now)) indexes.now }
    {
        for at in 0..indexes.len() {
            output[at] = self.get_val(indexes[at]);
        }
    }

    /// The same, each found.
    fn get_vals_opt(&self, indexes: &[u32], output: &mut [Option<T>])
        requires below { AreBelow (length (values self.now)) indexes.now }
        requires alike { length indexes.now ≡ length output.old }
        ensures { output.new ≡ map (slice_get (values self.now)) indexes.now }
    {
        for at in 0..indexes.len() {
            output[at] = Some(self.get_val(indexes[at]));
        }
    }

    /// The values from a position on.
    fn get_range(&self, start: u64, output: &mut [T])
        requires { start + length output.old ≤ length (values self.now) }
        ensures { output.new ≡ take (length output.old) (drop start (values self.now)) }
    {
        // That there are fewer than 2 ^ 32 values is known of the count.
        let _count = self.num_vals();
        for at in 0..output.len() {
            output[at] = self.get_val((start + at as u64) as u32);
        }
    }

    /// The positions in a range whose values are from the first to the last, ascending.
    #[tactic(auto, using(crate::proofs::HitLemmas::hits_none))]
    fn get_row_ids_between(&self, low: T, high: T, rows: Rows, hits: &mut Vec<RowId>) -> Found
        ensures { Replaces result hits.new.items
            (hits_between T.partial_cmp (values self.now) low high rows.start rows.end) }
    {
        hits.clear();
        let mut block = [0; BLOCK_LEN as usize];
        let end = rows.end.min(self.num_vals());
        let mut start = rows.start;
        while start < end {
            let next = start + (end - start).min(BLOCK_LEN);
            let mut found = 0;
            for row in start..next {
                let value = self.get_val(row);
                block[found] = row;
                found += is_within(&low, &value, &high) as usize;
            }
            if hits.extend_from_slice(&block[..found]).is_err() {
                hits.clear();
                return Err(ColumnarError::OutOfMemory);
            }
            start = next;
        }
        Ok(())
    }

    /// The same by a range.
    #[tactic(auto, using(crate::proofs::HitLemmas::hits_rise))]
    final fn get_row_ids_for_value_range(
        &self,
        value_range: RangeInclusive<T>,
        row_ids: Range<RowId>,
        hits: &mut Vec<RowId>,
    ) -> Result<(), ColumnarError>
    where
        Self: Sized,
        ensures ok { Replaces result hits.new.items
            (hits_between T.partial_cmp (values self.now) (range_inclusive_start value_range)
            (range_inclusive_end value_range) row_ids.start row_ids.end) }
        ensures rises { is_rising hits.new.items ≡ true }
    {
        let (low, high) = value_range.into_inner();
        self.get_row_ids_between(low, high, row_ids, hits)
    }

    /// A walk over all values.
    final fn iter(&self) -> ValuesIter<'_, Self>
    where
        Self: Sized,
        ensures { result.values.now ≡ self.now }
    {
        ValuesIter { values: self }
    }
}
